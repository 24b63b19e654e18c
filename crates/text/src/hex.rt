// Hex digits, in capitals.
ghost use Rattle.std.specs.Prelude.{◌≡◌, ◌++◌, ◌%◌, ◌≤◌, length};
ghost use Rattle.digits.specs.Bytes.{put};
ghost use Rattle.text.specs.Text.{hex_digit, hex_byte, hex_word};

// The digit of the low half of a byte.
pub fn hex_digit(n: u8) -> u8
    ensures { result ≡ hex_digit (n % 16) }
{
    let d = n % 16;
    if d < 10 { b'0' + d } else { b'A' + (d - 10) }
}

// A byte in two digits, at the front of the buffer.
pub fn write_hex(out: &mut [u8], n: u8)
    requires { 2 ≤ length out.old }
    ensures { out.new ≡ put out.old 0 (hex_byte n) }
{
    out[0] = hex_digit(n / 16);
    out[1] = hex_digit(n);
}

// Two bytes in two digits each, one after the other.
fn write_hex_pair(out: &mut [u8], a: u8, b: u8)
    requires { 4 ≤ length out.old }
    ensures { out.new ≡ put out.old 0 (hex_byte a ++ hex_byte b) }
{
    write_hex(out, a);
    write_hex(&mut out[2..], b);
}

// A number of two bytes in four digits, at the front of the buffer.
pub fn write_hex_word(out: &mut [u8], n: u16)
    requires { 4 ≤ length out.old }
    ensures { out.new ≡ put out.old 0 (hex_word n) }
{
    write_hex_pair(out, (n / 256) as u8, (n % 256) as u8);
}
