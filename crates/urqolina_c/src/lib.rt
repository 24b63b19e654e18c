// The four calls for a C host. Each hands what it is lent to the library's function of its name and promises the same; what those
// do is said in the crate urqolina, and what the host sees to in include/urqolina.h. The C interface has them by these names.

#![tactic(auto)]

ghost use Rattle.std.specs.Prelude.{◌≡◌};
ghost use Rattle.urqolina.specs.Calls.{fresh_call, command_call, reading_call, tick_call};

// Makes the fresh table of a card, 0 of sixteen motors or 1 of four.
#[unsafe(no_mangle)]
pub extern "C" fn urqolina_fresh(table: &mut [u8], card: u32) -> u32
    ensures { record { result = result; table = table.new } ≡ fresh_call table.old card }
{
    urqolina::urqolina_fresh(table, card)
}

// Takes one command line and writes its reply.
#[unsafe(no_mangle)]
pub extern "C" fn urqolina_command(table: &mut [u8], line: &[u8], reply: &mut [u8]) -> u32
    ensures { record { result = result; table = table.new; reply = reply.new } ≡ command_call table.old line.now reply.old }
{
    urqolina::urqolina_command(table, line, reply)
}

// Takes one switch reading of a channel.
#[unsafe(no_mangle)]
pub extern "C" fn urqolina_reading(table: &mut [u8], channel: u32, contacts: u32) -> u32
    ensures { record { result = result; table = table.new } ≡ reading_call table.old channel contacts }
{
    urqolina::urqolina_reading(table, channel, contacts)
}

// Takes one tick and writes the pulses of each channel.
#[unsafe(no_mangle)]
pub extern "C" fn urqolina_tick(table: &mut [u8], pulses: &mut [u8]) -> u32
    ensures { record { result = result; table = table.new; pulses = pulses.new } ≡ tick_call table.old pulses.old }
{
    urqolina::urqolina_tick(table, pulses)
}
