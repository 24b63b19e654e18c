// The settings of a motor: the name of its selected speed, and its SETLS and SETMT digits one by one.

ghost use Rattle.std.specs.Prelude.{◌≡◌, true, ◌≤◌, length};
ghost use Rattle.text.specs.Text.{Wrote};
ghost use Rattle.motor.specs.Sound.{setup_in_range};
ghost use Rattle.replies.specs.Replies.{selected_text, switches_text, motor_text};

use record::Setup;
use text::quoted::write_text;

// The name of the selected speed. Any byte is taken: what is neither 0 nor 1 is named as `selected_text` has it.
pub fn write_selected(out: &mut [u8], k: u8) -> usize
    requires { 32 ≤ length out.old }
    ensures { Wrote out.old out.new (selected_text k) result }
{
    if k == 0 {
        write_text(out, b"LSPD")
    } else if k == 1 {
        write_text(out, b"MSPD")
    } else {
        write_text(out, b"HSPD")
    }
}

// The bits of the SETLS byte as digits, the highest first.
pub fn write_switches(out: &mut [u8], n: u8) -> usize
    requires { 32 ≤ length out.old }
    ensures { Wrote out.old out.new (switches_text n) result }
{
    out[0] = b'0' + n / 128 % 2;
    out[1] = b'0' + n / 64 % 2;
    out[2] = b'0' + n / 32 % 2;
    out[3] = b'0' + n / 16 % 2;
    out[4] = b'0' + n / 8 % 2;
    out[5] = b'0' + n / 4 % 2;
    out[6] = b'0' + n / 2 % 2;
    out[7] = b'0' + n % 2;
    8
}

// The four SETMT digits: each is a single one where they are in range.
pub fn write_setup(out: &mut [u8], s: Setup) -> usize
    requires in_bounds { 32 ≤ length out.old }
    requires s_value { setup_in_range s ≡ true }
    ensures { Wrote out.old out.new (motor_text s) result }
{
    out[0] = b'0' + s.a;
    out[1] = b'0' + s.b;
    out[2] = b'0' + s.c;
    out[3] = b'0' + s.d;
    4
}
