// What the lists of a call stand for: a setup, a finger, forces, a book, a neck, and what is lent.
use crate::call::{Arguments, List};
use crate::number::Number;
use crate::room::{NeckRoom, Strings};
use voice::{Book, Finger, FingerSetup, Forces, Neck, Setup, Wide};

impl<'a> Arguments<'a> {
    // A setup's eleven fields, in 01's order.
    pub fn setup(&mut self) -> Setup {
        let mut list = self.list();
        Setup {
            segments: list.number(),
            tension: list.number(),
            stiffness: list.number(),
            viscous: list.number(),
            plain: list.number(),
            finger: FingerSetup {
                stiffness: list.number(),
                mass: list.number(),
                place: list.number(),
            },
            pluck_place: list.number(),
            bridge_place: list.number(),
            neck_place: list.number(),
        }
    }

    // A finger's newer height, older height and contact variable.
    pub fn finger(&mut self) -> Finger {
        let mut list = self.list();
        Finger {
            newer: list.number(),
            older: list.number(),
            contact: list.number(),
        }
    }

    // Pluck force and finger force.
    pub fn forces(&mut self) -> Forces {
        let mut list = self.list();
        Forces {
            pluck: list.number(),
            finger: list.number(),
        }
    }

    // The words of a book's four columns, and its count.
    pub fn book(&mut self) -> Book {
        let mut list = self.list();
        Book {
            stored: wide(&mut list),
            work: wide(&mut list),
            loss: wide(&mut list),
            rounding: wide(&mut list),
            count: list.number(),
        }
    }

    // The heights and the stiffness of a neck's points.
    pub fn neck<'b>(&mut self, room: &'b mut NeckRoom) -> Neck<'b> {
        let heights = &mut room.heights;
        let stiffness = &mut room.stiffness;
        Neck {
            heights: self.list().read(heights),
            stiffness: self.list().read(stiffness),
        }
    }

    // Two string buffers and the contact variables.
    pub fn strings(&mut self) -> Strings<'a> {
        Strings {
            first: self.list(),
            second: self.list(),
            contact: self.list(),
        }
    }
}

// The words of a number of 128 bits, the high one first.
fn wide(list: &mut List) -> Wide {
    Wide {
        high: list.number(),
        low: list.number(),
    }
}
