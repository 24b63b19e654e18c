// What follows the word of a row.

ghost use Rattle.std.specs.Prelude.{◌≡◌, drop};
ghost use Rattle.line.specs.Forms.{forms};
ghost use Rattle.line.specs.Tails.{fields_of};
ghost use Rattle.form.specs.Table.{fields_by};

use crate::requests::request_tail;
use crate::rows::*;
use line::{AfterX, Tail};

// What follows the word of a row; nothing does where there is no row. An arm for each row, in the rows' order.
#[tactic(auto, unfolding(crate::specs::Computing::computing_form))]
pub fn tail_of(row: u8) -> Option<Tail>
    ensures { fields_of result ≡ fields_by (drop row forms) }
{
    match row {
        ABS_ROW => Some(Tail::AtX(AfterX::XSigned)),
        REL_ROW => Some(Tail::AtX(AfterX::XSigned)),
        SCANP_ROW => Some(Tail::AtX(AfterX::OnlyX)),
        SCANN_ROW => Some(Tail::AtX(AfterX::OnlyX)),
        JOGP_ROW => Some(Tail::AtX(AfterX::OnlyX)),
        JOGN_ROW => Some(Tail::AtX(AfterX::OnlyX)),
        SSTP_ROW => Some(Tail::AtX(AfterX::OnlyX)),
        ESTP_ROW => Some(Tail::AtX(AfterX::OnlyX)),
        ASSTP_ROW => Some(Tail::Alone),
        AESTP_ROW => Some(Tail::Alone),
        SPC_ROW => Some(Tail::AtX(AfterX::XNumber)),
        PS_ROW => Some(Tail::AtX(AfterX::XSigned)),
        FL_ROW => Some(Tail::AtX(AfterX::XSigned)),
        BL_ROW => Some(Tail::AtX(AfterX::XSigned)),
        SPDH_ROW => Some(Tail::AtX(AfterX::OnlyX)),
        SPDM_ROW => Some(Tail::AtX(AfterX::OnlyX)),
        SPDL_ROW => Some(Tail::AtX(AfterX::OnlyX)),
        SET_SPDH_ROW => Some(Tail::AtX(AfterX::XNumber)),
        SET_SPDM_ROW => Some(Tail::AtX(AfterX::XNumber)),
        SET_SPDL_ROW => Some(Tail::AtX(AfterX::XNumber)),
        SETLS_ROW => Some(Tail::AtX(AfterX::XSwitches)),
        SETMT_ROW => Some(Tail::AtX(AfterX::XDigits)),
        ASK_PS_ROW => Some(Tail::AtX(AfterX::OnlyX)),
        ASK_FL_ROW => Some(Tail::AtX(AfterX::OnlyX)),
        ASK_BL_ROW => Some(Tail::AtX(AfterX::OnlyX)),
        ASK_SPD_ROW => Some(Tail::AtX(AfterX::OnlyX)),
        ASK_SPDH_ROW => Some(Tail::AtX(AfterX::OnlyX)),
        ASK_SPDM_ROW => Some(Tail::AtX(AfterX::OnlyX)),
        ASK_SPDL_ROW => Some(Tail::AtX(AfterX::OnlyX)),
        ASK_SETLS_ROW => Some(Tail::AtX(AfterX::OnlyX)),
        ASK_SETMT_ROW => Some(Tail::AtX(AfterX::OnlyX)),
        ASK_STS_ROW => Some(Tail::AtX(AfterX::XQuestion)),
        LOC_ROW => Some(Tail::Alone),
        REM_ROW => Some(Tail::Alone),
        ALL_REP_EN_ROW => Some(Tail::Enabling),
        ALL_REP_DS_ROW => Some(Tail::Disabling),
        ASK_ALL_REP_ROW => Some(Tail::Alone),
        ASK_ERRF_ROW => Some(Tail::Alone),
        ASK_ERR_ROW => Some(Tail::Alone),
        ERRC_ROW => Some(Tail::Alone),
        ERRCE_ROW => Some(Tail::OneDigit),
        _ => request_tail(row),
    }
}
