// Room for the lists that a call lends.
use crate::call::List;
use crate::report;
use voice::{Finger, Lent};

// So many numbers of a list are read, which are more than a string has points.
pub const MOST: usize = 130;

// Room for a neck.
#[derive(Drop)]
pub struct NeckRoom {
    pub heights: [i32; MOST],
    pub stiffness: [u16; MOST],
}

impl NeckRoom {
    pub fn new() -> NeckRoom {
        NeckRoom {
            heights: [0; MOST],
            stiffness: [0; MOST],
        }
    }
}

// Room for two string buffers and the contact variables.
#[derive(Drop)]
pub struct StringsRoom {
    first: [i32; MOST],
    second: [i32; MOST],
    contact: [i32; MOST],
}

impl StringsRoom {
    pub fn new() -> StringsRoom {
        StringsRoom {
            first: [0; MOST],
            second: [0; MOST],
            contact: [0; MOST],
        }
    }
}

// The lists of two string buffers and the contact variables.
#[derive(Clone, Copy)]
pub struct Strings<'a> {
    pub first: List<'a>,
    pub second: List<'a>,
    pub contact: List<'a>,
}

impl Strings<'_> {
    // Lends their numbers, with a turn number and a finger.
    pub fn lend<'b>(self, room: &'b mut StringsRoom, turn: u32, finger: Finger) -> Lent<'b> {
        let first = &mut room.first;
        let second = &mut room.second;
        let contact = &mut room.contact;
        Lent {
            first: self.first.read(first),
            second: self.second.read(second),
            contact: self.contact.read(contact),
            turn,
            finger,
        }
    }

    // Prints what was lent, as it is now.
    pub fn print(self, rt: &impl Print, lent: &Lent) {
        report::list(rt, self.first, lent.first);
        report::list(rt, self.second, lent.second);
        report::list(rt, self.contact, lent.contact);
    }
}
