// What a line of a script asks for (reading), the texts that are printed for it (texts), the net pulses of its ticks (nets), and
// what is held of a line while it is read (holding). What each of these is stands in specs/.

#![tactic(auto)]

pub mod holding;
pub mod nets;
pub mod reading;
pub mod texts;

// What a line of a script asks for: a command line, which stands after its first two bytes; a switch reading of a channel; a number
// of ticks; or the four-motor card, asked for by the first line alone. Any other line asks for none of them. A channel and its contacts
// are the two numbers that urqolina_reading takes.
#[derive(Clone, Copy)]
pub enum Job {
    Send,
    Touch(u8, u8),
    Wait(u32),
    FourMotors,
}
