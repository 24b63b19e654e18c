// The rows of the forms by number, in document 01's order of the lines, and the row that a word has. They are places in the list `forms`,
// and no enum: `tail_of` and `order_of` take every number, and the list of the documents stays the one that orders them.

ghost use Rattle.std.specs.Prelude.{true, false, ◌++◌};
ghost use Rattle.line.specs.Forms.{question_rows, head_rows, request_rows};
ghost use Rattle.form.specs.Table.{rows_with, rows_by, Numbers};

use crate::requests::{PAUSE, PAUSE_OFF_ROW, request_row};
use crate::words::*;

// Starts.
pub const ABS_ROW: u8 = 0;

pub const REL_ROW: u8 = 1;

pub const SCANP_ROW: u8 = 2;

pub const SCANN_ROW: u8 = 3;

pub const JOGP_ROW: u8 = 4;

pub const JOGN_ROW: u8 = 5;

// Stops, and the change of a speed in force.
pub const SSTP_ROW: u8 = 6;

pub const ESTP_ROW: u8 = 7;

pub const ASSTP_ROW: u8 = 8;

pub const AESTP_ROW: u8 = 9;

pub const SPC_ROW: u8 = 10;

// Settings. A speed is selected, or set where a number follows.
pub const PS_ROW: u8 = 11;

pub const FL_ROW: u8 = 12;

pub const BL_ROW: u8 = 13;

pub const SPDH_ROW: u8 = 14;

pub const SPDM_ROW: u8 = 15;

pub const SPDL_ROW: u8 = 16;

pub const SET_SPDH_ROW: u8 = 17;

pub const SET_SPDM_ROW: u8 = 18;

pub const SET_SPDL_ROW: u8 = 19;

pub const SETLS_ROW: u8 = 20;

pub const SETMT_ROW: u8 = 21;

// What is asked of a channel.
pub const ASK_PS_ROW: u8 = 22;

pub const ASK_FL_ROW: u8 = 23;

pub const ASK_BL_ROW: u8 = 24;

pub const ASK_SPD_ROW: u8 = 25;

pub const ASK_SPDH_ROW: u8 = 26;

pub const ASK_SPDM_ROW: u8 = 27;

pub const ASK_SPDL_ROW: u8 = 28;

pub const ASK_SETLS_ROW: u8 = 29;

pub const ASK_SETMT_ROW: u8 = 30;

pub const ASK_STS_ROW: u8 = 31;

// The head.
pub const LOC_ROW: u8 = 32;

pub const REM_ROW: u8 = 33;

pub const ALL_REP_EN_ROW: u8 = 34;

pub const ALL_REP_DS_ROW: u8 = 35;

pub const ASK_ALL_REP_ROW: u8 = 36;

pub const ASK_ERRF_ROW: u8 = 37;

pub const ASK_ERR_ROW: u8 = 38;

pub const ERRC_ROW: u8 = 39;

pub const ERRCE_ROW: u8 = 40;

// Of what is asked, of the head and of the requests.
#[tactic(auto, using(crate::proofs::TableLaws::none_before), unfolding(crate::specs::Computing::computing_form))]
fn later_row(word: u64) -> Option<u8>
    ensures { Numbers result (rows_with word (question_rows ++ (head_rows ++ request_rows))) }
{
    match word {
        ASK_PS => Some(ASK_PS_ROW),
        ASK_FL => Some(ASK_FL_ROW),
        ASK_BL => Some(ASK_BL_ROW),
        ASK_SPD => Some(ASK_SPD_ROW),
        ASK_SPDH => Some(ASK_SPDH_ROW),
        ASK_SPDM => Some(ASK_SPDM_ROW),
        ASK_SPDL => Some(ASK_SPDL_ROW),
        ASK_SETLS => Some(ASK_SETLS_ROW),
        ASK_SETMT => Some(ASK_SETMT_ROW),
        ASK_STS => Some(ASK_STS_ROW),
        LOC => Some(LOC_ROW),
        REM => Some(REM_ROW),
        ALL_REP => Some(ALL_REP_EN_ROW),
        ASK_ALL_REP => Some(ASK_ALL_REP_ROW),
        ASK_ERRF => Some(ASK_ERRF_ROW),
        ASK_ERR => Some(ASK_ERR_ROW),
        ERRC => Some(ERRC_ROW),
        _ => request_row(word),
    }
}

// The first row of a word, where it has one.
#[tactic(auto, using(crate::proofs::TableLaws::none_before), unfolding(crate::specs::Computing::computing_form))]
pub fn first_row(word: u64) -> Option<u8>
    ensures { Numbers result (rows_by false word) }
{
    match word {
        ABS => Some(ABS_ROW),
        REL => Some(REL_ROW),
        SCANP => Some(SCANP_ROW),
        SCANN => Some(SCANN_ROW),
        JOGP => Some(JOGP_ROW),
        JOGN => Some(JOGN_ROW),
        SSTP => Some(SSTP_ROW),
        ESTP => Some(ESTP_ROW),
        ASSTP => Some(ASSTP_ROW),
        AESTP => Some(AESTP_ROW),
        SPC => Some(SPC_ROW),
        PS => Some(PS_ROW),
        FL => Some(FL_ROW),
        BL => Some(BL_ROW),
        SPDH => Some(SPDH_ROW),
        SPDM => Some(SPDM_ROW),
        SPDL => Some(SPDL_ROW),
        SETLS => Some(SETLS_ROW),
        SETMT => Some(SETMT_ROW),
        _ => later_row(word),
    }
}

// The second row of a word, where it has one.
#[tactic(auto, using(crate::proofs::TableLaws::none_with), unfolding(crate::specs::Computing::computing_form))]
pub fn second_row(word: u64) -> Option<u8>
    ensures { Numbers result (rows_by true word) }
{
    match word {
        SPDH => Some(SET_SPDH_ROW),
        SPDM => Some(SET_SPDM_ROW),
        SPDL => Some(SET_SPDL_ROW),
        ALL_REP => Some(ALL_REP_DS_ROW),
        ERRC => Some(ERRCE_ROW),
        PAUSE => Some(PAUSE_OFF_ROW),
        _ => None,
    }
}
