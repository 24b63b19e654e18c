// The words of the lines. A word is the number of its letters in ASCII, the last one lowest.

// Starts.
pub const ABS: u64 = 0x41_42_53;

pub const REL: u64 = 0x52_45_4c;

pub const SCANP: u64 = 0x53_43_41_4e_50;

pub const SCANN: u64 = 0x53_43_41_4e_4e;

pub const JOGP: u64 = 0x4a_4f_47_50;

pub const JOGN: u64 = 0x4a_4f_47_4e;

// Stops, and the change of a speed in force.
pub const SSTP: u64 = 0x53_53_54_50;

pub const ESTP: u64 = 0x45_53_54_50;

pub const ASSTP: u64 = 0x41_53_53_54_50;

pub const AESTP: u64 = 0x41_45_53_54_50;

pub const SPC: u64 = 0x53_50_43;

// Settings.
pub const PS: u64 = 0x50_53;

pub const FL: u64 = 0x46_4c;

pub const BL: u64 = 0x42_4c;

pub const SPDH: u64 = 0x53_50_44_48;

pub const SPDM: u64 = 0x53_50_44_4d;

pub const SPDL: u64 = 0x53_50_44_4c;

pub const SETLS: u64 = 0x53_45_54_4c_53;

pub const SETMT: u64 = 0x53_45_54_4d_54;

// What is asked of a channel. The question mark is the last letter of these words, but that of STSx? is a field.
pub const ASK_PS: u64 = 0x50_53_3f;

pub const ASK_FL: u64 = 0x46_4c_3f;

pub const ASK_BL: u64 = 0x42_4c_3f;

pub const ASK_SPD: u64 = 0x53_50_44_3f;

pub const ASK_SPDH: u64 = 0x53_50_44_48_3f;

pub const ASK_SPDM: u64 = 0x53_50_44_4d_3f;

pub const ASK_SPDL: u64 = 0x53_50_44_4c_3f;

pub const ASK_SETLS: u64 = 0x53_45_54_4c_53_3f;

pub const ASK_SETMT: u64 = 0x53_45_54_4d_54_3f;

pub const ASK_STS: u64 = 0x53_54_53;

// The head. The space of ALL_REP EN is the last letter of its word.
pub const LOC: u64 = 0x4c_4f_43;

pub const REM: u64 = 0x52_45_4d;

pub const ALL_REP: u64 = 0x41_4c_4c_5f_52_45_50_20;

pub const ASK_ALL_REP: u64 = 0x41_4c_4c_5f_52_45_50_3f;

pub const ASK_ERRF: u64 = 0x45_52_52_46_3f;

pub const ASK_ERR: u64 = 0x45_52_52_3f;

pub const ERRC: u64 = 0x45_52_52_43;
