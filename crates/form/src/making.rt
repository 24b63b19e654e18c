// The order that a row makes of its fields.

ghost use Rattle.std.specs.Prelude.{◌≡◌, ◌≤◌, drop, None};
ghost use Rattle.line.specs.Forms.{forms};
ghost use Rattle.form.specs.Table.{order_by};

use crate::requests::request_order;
use crate::rows::*;
use digits::places::{CCW, CW};
use line::{Fields, HeadOrder, HeadQuestion, Order, Question, Setting, Start};

// The speeds by number, and the end flags of the stops, as an Order carries them.
const LSPD: u8 = 0;

const MSPD: u8 = 1;

const HSPD: u8 = 2;

const SSEND: u8 = 0x40;

const ESEND: u8 = 0x80;

// The order that a row makes of its fields; nothing where there is no row. Each of these leaves the later rows to the next.
#[tactic(auto, unfolding(crate::specs::Computing::computing_form))]
pub fn order_of(row: u8, f: Fields) -> Option<Order>
    ensures { result ≡ order_by (drop row forms) f None }
{
    let x = f.channel;
    let written = f.written;
    match row {
        ABS_ROW => Some(Order::Go(x, Start::Abs(written))),
        REL_ROW => Some(Order::Go(x, Start::Rel(written))),
        SCANP_ROW => Some(Order::Go(x, Start::Scan(CW))),
        SCANN_ROW => Some(Order::Go(x, Start::Scan(CCW))),
        JOGP_ROW => Some(Order::Go(x, Start::Jog(CW))),
        JOGN_ROW => Some(Order::Go(x, Start::Jog(CCW))),
        _ => stop_order(row, f),
    }
}

#[tactic(auto, unfolding(crate::specs::Computing::computing_form))]
fn stop_order(row: u8, f: Fields) -> Option<Order>
    requires { 6 ≤ row }
    ensures { result ≡ order_by (drop row forms) f None }
{
    let x = f.channel;
    let written = f.written;
    match row {
        SSTP_ROW => Some(Order::Stop(x, SSEND)),
        ESTP_ROW => Some(Order::Stop(x, ESEND)),
        ASSTP_ROW => Some(Order::StopAll(SSEND)),
        AESTP_ROW => Some(Order::StopAll(ESEND)),
        SPC_ROW => Some(Order::ChangeSpeed(x, written.digits)),
        _ => setting_order(row, f),
    }
}

#[tactic(auto, unfolding(crate::specs::Computing::computing_form))]
fn setting_order(row: u8, f: Fields) -> Option<Order>
    requires { 11 ≤ row }
    ensures { result ≡ order_by (drop row forms) f None }
{
    let x = f.channel;
    let written = f.written;
    let first = f.first;
    let second = f.second;
    match row {
        PS_ROW => Some(Order::Set(x, Setting::Preset(written))),
        FL_ROW => Some(Order::Set(x, Setting::SetCwLimit(written))),
        BL_ROW => Some(Order::Set(x, Setting::SetCcwLimit(written))),
        SPDH_ROW => Some(Order::Set(x, Setting::Select(HSPD))),
        SPDM_ROW => Some(Order::Set(x, Setting::Select(MSPD))),
        SPDL_ROW => Some(Order::Set(x, Setting::Select(LSPD))),
        SET_SPDH_ROW => Some(Order::Set(x, Setting::SetSpeed(HSPD, written.digits))),
        SET_SPDM_ROW => Some(Order::Set(x, Setting::SetSpeed(MSPD, written.digits))),
        SET_SPDL_ROW => Some(Order::Set(x, Setting::SetSpeed(LSPD, written.digits))),
        SETLS_ROW => Some(Order::Set(x, Setting::SetSwitches(first, second))),
        SETMT_ROW => Some(Order::Set(x, Setting::SetMotor(first))),
        _ => question_order(row, f),
    }
}

#[tactic(auto, unfolding(crate::specs::Computing::computing_form))]
fn question_order(row: u8, f: Fields) -> Option<Order>
    requires { 22 ≤ row }
    ensures { result ≡ order_by (drop row forms) f None }
{
    let x = f.channel;
    match row {
        ASK_PS_ROW => Some(Order::Ask(x, Question::AskPosition)),
        ASK_FL_ROW => Some(Order::Ask(x, Question::AskCwLimit)),
        ASK_BL_ROW => Some(Order::Ask(x, Question::AskCcwLimit)),
        ASK_SPD_ROW => Some(Order::Ask(x, Question::AskSelected)),
        ASK_SPDH_ROW => Some(Order::Ask(x, Question::AskSpeed(HSPD))),
        ASK_SPDM_ROW => Some(Order::Ask(x, Question::AskSpeed(MSPD))),
        ASK_SPDL_ROW => Some(Order::Ask(x, Question::AskSpeed(LSPD))),
        ASK_SETLS_ROW => Some(Order::Ask(x, Question::AskSwitches)),
        ASK_SETMT_ROW => Some(Order::Ask(x, Question::AskMotor)),
        ASK_STS_ROW => Some(Order::Ask(x, Question::AskStatus)),
        _ => head_order(row, f),
    }
}

// The rows of the requests follow the head's here, in the rows' order.
#[tactic(auto, unfolding(crate::specs::Computing::computing_form))]
fn head_order(row: u8, f: Fields) -> Option<Order>
    requires { 32 ≤ row }
    ensures { result ≡ order_by (drop row forms) f None }
{
    let written = f.written;
    match row {
        LOC_ROW => Some(Order::ForHead(HeadOrder::Mode(0))),
        REM_ROW => Some(Order::ForHead(HeadOrder::Mode(1))),
        ALL_REP_EN_ROW => Some(Order::ForHead(HeadOrder::AllReply(1))),
        ALL_REP_DS_ROW => Some(Order::ForHead(HeadOrder::AllReply(0))),
        ASK_ALL_REP_ROW => Some(Order::AskHead(HeadQuestion::AskAllReply)),
        ASK_ERRF_ROW => Some(Order::AskHead(HeadQuestion::AskFlags)),
        ASK_ERR_ROW => Some(Order::AskHead(HeadQuestion::AskError)),
        ERRC_ROW => Some(Order::ForHead(HeadOrder::ClearErrors)),
        ERRCE_ROW => Some(Order::ForHead(HeadOrder::ClearError(written.digits))),
        _ => request_order(row, f),
    }
}
