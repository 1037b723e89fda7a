// Calls that read a string: the newest one, and a place of it.
use crate::call::Arguments;
use crate::room::MOST;
use printing::Bits;
use voice::{Reading, newest, read_place};

// A call of the newest string: first, second, turn.
pub fn answer_newest(rt: &impl Print, mut arguments: Arguments) {
    let mut first_room = [0; MOST];
    let mut second_room = [0; MOST];
    let first = arguments.list().read(&mut first_room);
    let second = arguments.list().read(&mut second_room);
    let string = newest(first, second, arguments.number());
    printing::text(rt, b"string");
    printing::list(rt, string);
}

// A call of reading a place: setup, heights, first, second, turn, place.
pub fn answer_reading(rt: &impl Print, mut arguments: Arguments) {
    let mut heights_room = [0; MOST];
    let mut first_room = [0; MOST];
    let mut second_room = [0; MOST];
    let setup = arguments.setup();
    let heights = arguments.list().read(&mut heights_room);
    let first = arguments.list().read(&mut first_room);
    let second = arguments.list().read(&mut second_room);
    let turn = arguments.number();
    let place = arguments.number();
    match read_place(setup, heights, first, second, turn, place) {
        Reading::Free(displacement) => {
            printing::text(rt, b"free ");
            let _ = print!(rt; "{}", Bits(displacement));
        }
        Reading::Pressed(displacement, depth) => {
            printing::text(rt, b"pressed ");
            let _ = print!(rt; "{}", Bits(displacement));
            let _ = print!(rt; " {}", Bits(depth));
        }
        Reading::Refused(number) => {
            let _ = print!(rt; "{number}");
        }
    }
}
