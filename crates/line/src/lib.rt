// A command line and the order that it is. An order carries what was written, in range or not: a value is judged later, in
// its place among the refusals. The lines themselves are listed in specs/Forms.antt, row by row.

#![tactic(auto)]

pub mod cards;
pub mod field_reading;

pub use field_reading::Got;

// A number as it was written: its sign, and the value of its 1 to 10 digits.
#[derive(Clone, Copy)]
pub struct Written {
    pub minus: bool,
    pub digits: u64,
}

// Four decimal digits as they were written.
#[derive(Clone, Copy)]
pub struct Four {
    pub a: u8,
    pub b: u8,
    pub c: u8,
    pub d: u8,
}

// What the fields of a line gave: the channel x, a number, and two groups of four digits (DYYY and 0yyy, or ABCD).
#[derive(Clone, Copy)]
pub struct Fields {
    pub channel: u8,
    pub written: Written,
    pub first: Four,
    pub second: Four,
}

// The kinds of field that may follow a word. `End` stands where a row has no field more, `Never` where no line has the form.
#[derive(Clone, Copy)]
pub enum Field {
    // x
    Channel,
    // ±d
    Signed,
    // d
    Unsigned,
    // e
    Digit,
    // the ? of STSx?
    Question,
    // DYYY, ABCD
    FourDigits,
    // 0yyy
    ZeroThree,
    // EN
    Enable,
    // DS
    Disable,
    // ON
    On,
    // OFF
    Off,
    End,
    Never,
}

// What follows a word, as the code reads it: the fields of each are in specs/Tails.antt.
#[derive(Clone, Copy)]
pub enum Tail {
    // nothing, as in ASSTP
    Alone,
    // x and what follows it
    AtX(AfterX),
    // e
    OneDigit,
    // EN
    Enabling,
    // DS
    Disabling,
    // ON
    TurnOn,
    // OFF
    TurnOff,
}

// What follows x.
#[derive(Clone, Copy)]
pub enum AfterX {
    // nothing, as in SCANPx
    OnlyX,
    // ±d
    XSigned,
    // d
    XNumber,
    // DYYY0yyy
    XSwitches,
    // ABCD
    XDigits,
    // the ? of STSx?
    XQuestion,
}

// Starts. A direction is 1 for CW (P) and 2 for CCW (N). What these enums carry as a byte (a direction, a speed's number, an end flag, a
// byte of the head) is no enum of its own: `course_of`, `with_setting`, `value_in_range`, `needs_remote` and `has_form` take every byte there,
// and say what it means. That an order was made by a line is `order_made` beside it, and not a type, since they take any other order too.
#[derive(Clone, Copy)]
pub enum Start {
    // ABSx±d
    Abs(Written),
    // RELx±d
    Rel(Written),
    // SCANPx, SCANNx
    Scan(u8),
    // JOGPx, JOGNx
    Jog(u8),
}

// Settings of a channel. A speed is numbered 0 L, 1 M, 2 H.
#[derive(Clone, Copy)]
pub enum Setting {
    // PSx±d
    Preset(Written),
    // FLx±d
    SetCwLimit(Written),
    // BLx±d
    SetCcwLimit(Written),
    // SPDHx, SPDMx, SPDLx
    Select(u8),
    // SPDHxd, SPDMxd, SPDLxd
    SetSpeed(u8, u64),
    // SETLSxDYYY0yyy
    SetSwitches(Four, Four),
    // SETMTxABCD
    SetMotor(Four),
}

// What is asked of a channel.
#[derive(Clone, Copy)]
pub enum Question {
    // PS?x
    AskPosition,
    // FL?x
    AskCwLimit,
    // BL?x
    AskCcwLimit,
    // SPD?x
    AskSelected,
    // SPDH?x, SPDM?x, SPDL?x
    AskSpeed(u8),
    // SETLS?x
    AskSwitches,
    // SETMT?x
    AskMotor,
    // STSx?
    AskStatus,
}

// What is asked of the head.
#[derive(Clone, Copy)]
pub enum HeadQuestion {
    // ALL_REP?
    AskAllReply,
    // ERRF?
    AskFlags,
    // ERR?
    AskError,
    // PAUSE?
    AskPause,
    // BSY?
    AskBusy,
    // STQ?
    AskFree,
}

// What is to be changed in the head. Mode, all-reply and pause carry the byte that it is to hold: 0 local, 1 remote; 0 off, 1
// on.
#[derive(Clone, Copy)]
pub enum HeadOrder {
    // LOC, REM
    Mode(u8),
    // ALL_REP EN, ALL_REP DS
    AllReply(u8),
    // ERRC
    ClearErrors,
    // ERRCe
    ClearError(u64),
    // PAUSE ON, PAUSE OFF
    Pause(u8),
}

// An order, with the channel that it names first. A stop carries the end flag that it sets. What concerns the head has two
// arms, one that asks and one that changes, so that no other line of the head adds an arm here.
#[derive(Clone, Copy)]
pub enum Order {
    Go(u8, Start),
    // SSTPx, ESTPx
    Stop(u8, u8),
    // ASSTP, AESTP
    StopAll(u8),
    // SPCxd
    ChangeSpeed(u8, u64),
    Set(u8, Setting),
    Ask(u8, Question),
    AskHead(HeadQuestion),
    ForHead(HeadOrder),
}
