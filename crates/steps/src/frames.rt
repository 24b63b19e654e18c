// A field of a list, as far as its value is not looked at: "one-byte tag, two-byte length and value, low byte first".

#![tactic(auto, using(crate::proofs::FieldLaws::cut_asked), unfolding(crate::specs::Fields::tag_at, crate::specs::Fields::length_at, crate::specs::Fields::is_cut, crate::specs::Fields::frame_fault, crate::specs::Fields::channel_at, crate::specs::Fields::double_at))]

ghost use Rattle.std.specs.Prelude.{◌≡◌, ◌+◌, ◌<◌, ◌≤◌, length};
ghost use Rattle.steps.specs.Fields.{ended, is_cut, value_size, frame_at, channel_at, double_at};

use crate::{Cause, Fault};
use digits::words::Word;
use doubles::double_of;

// The tags of a list's fields. They stay bytes, since a list may have any byte in the place of a tag.
pub const CHANNEL: u8 = 1;

pub const TARGET: u8 = 2;

pub const DISTANCE: u8 = 3;

pub const SPEED: u8 = 4;

pub const DWELL: u8 = 5;

// How many bytes the value of a tag has.
fn value_size(tag: u8) -> u16
    ensures { result ≡ value_size tag }
{
    if tag == CHANNEL { 1 } else { 8 }
}

// The field at a place of a list.
#[derive(Clone, Copy)]
pub struct Field<'a> {
    pub list: &'a [u8],
    pub at: usize,
}

impl<'a> Field<'a> {
    // The field so many bytes after it.
    pub(crate) fn after(self, n: usize) -> Field<'a>
        requires { self.at + n < 18446744073709551616 }
        ensures { (result.list ≡ self.entry.list) × (result.at ≡ self.entry.at + n) }
    {
        Field {
            at: self.at + n,
            ..self
        }
    }

    // Whether the list ends before it.
    pub(crate) fn is_past(self) -> bool
        ensures { result ≡ ended self.entry.list.now self.entry.at }
    {
        self.list.len() <= self.at
    }

    // Whether fewer bytes are left than it takes.
    fn is_cut(self) -> bool
        requires { self.at ≤ length self.list.now }
        ensures { result ≡ is_cut self.entry.list.now self.entry.at }
    {
        let left = self.list.len() - self.at;
        left < 3 || left - 3 < u16::read_at(self.list, self.at + 1) as usize
    }

    // Its tag, where tag a or b is to stand, or what refuses it, its value aside.
    pub fn frame(self, a: u8, b: u8) -> Result<u8, Fault>
        ensures { result ≡ frame_at a b self.entry.list.now self.entry.at }
    {
        if self.is_past() {
            return Err(Cause::TagOrOrder.at(self.at));
        }
        if self.is_cut() {
            return Err(Cause::CutShort.at(self.at));
        }
        let tag = u8::read_at(self.list, self.at);
        if tag != a && tag != b {
            return Err(Cause::TagOrOrder.at(self.at));
        }
        if u16::read_at(self.list, self.at + 1) != value_size(tag) {
            return Err(Cause::WrongLength.at(self.at));
        }
        Ok(tag)
    }

    // The byte of its value, as a channel's has it.
    pub(crate) fn channel(self) -> u8
        requires { self.at + 4 ≤ length self.list.now }
        ensures { result ≡ channel_at self.entry.list.now self.entry.at }
    {
        u8::read_at(self.list, self.at + 3)
    }

    // The double of its value.
    pub fn double(self) -> f64
        requires { self.at + 11 ≤ length self.list.now }
        ensures { result ≡ double_at self.entry.list.now self.entry.at }
    {
        double_of(u64::read_at(self.list, self.at + 3))
    }
}
