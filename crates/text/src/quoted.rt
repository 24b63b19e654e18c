// Quoted texts, copied to the front of the part that the caller lends.

ghost use Rattle.std.specs.Prelude.{◌≤◌, length};
ghost use Rattle.text.specs.Text.{Wrote};

// A quoted text: what is answered is how long it is.
pub fn write_text(out: &mut [u8], text: &[u8]) -> usize
    requires { length text.now ≤ length out.old }
    ensures { Wrote out.old out.new text.now result }
{
    let n = text.len();
    out[..n].copy_from_slice(text);
    n
}
