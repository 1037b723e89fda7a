// Calls that start, and that make steps: a fresh start, a step, a step that is booked, and a block.
use crate::call::{Arguments, List};
use crate::report;
use crate::room::{MOST, NeckRoom, StringsRoom};
use voice::{
    Finger, Frame, Lent, Refusal, Setup, Started, fresh_start, play_block, step, step_booked,
};

// What a step answered, and what was lent to it.
fn print_step(rt: &impl Print, answer: Result<Frame, Refusal>, lent: &Lent) {
    report::number(rt, answer.err());
    if let Ok(frame) = answer {
        report::turn_and_finger(rt, lent.turn, lent.finger);
        printing::text(rt, b" frame");
        printing::samples_best_effort(rt, &[frame.bridge, frame.neck]);
    }
}

// Starts with the heights of a list.
fn start(setup: Setup, lent: &mut Lent, mut heights: List) -> Result<Started, Refusal> {
    fresh_start(
        setup,
        lent.first,
        lent.second,
        lent.contact,
        heights.number(),
        heights.number(),
    )
}

// A call of the fresh start: setup, first, second, contact, heights.
pub fn answer_start(rt: &impl Print, mut arguments: Arguments) {
    let mut room = StringsRoom::new();
    let setup = arguments.setup();
    let strings = arguments.strings();
    let mut lent = strings.lend(&mut room, 0, Finger::default());
    let answer = start(setup, &mut lent, arguments.list());
    report::number(rt, answer.err());
    if let Ok(started) = answer {
        report::turn_and_finger(rt, started.turn, started.finger);
        printing::book_best_effort(rt, started.book);
    }
    strings.print(rt, &lent);
}

// A call of step: setup, heights, stiffness, first, second, contact, turn, finger, forces.
pub fn answer_step(rt: &impl Print, mut arguments: Arguments) {
    let mut neck_room = NeckRoom::new();
    let mut room = StringsRoom::new();
    let setup = arguments.setup();
    let neck = arguments.neck(&mut neck_room);
    let strings = arguments.strings();
    let mut lent = strings.lend(&mut room, arguments.number(), arguments.finger());
    let answer = step(setup, neck, &mut lent, arguments.forces());
    print_step(rt, answer, &lent);
    strings.print(rt, &lent);
}

// A call of a booked step: setup, heights, stiffness, first, second, contact, turn, finger, forces, book.
pub fn answer_step_booked(rt: &impl Print, mut arguments: Arguments) {
    let mut neck_room = NeckRoom::new();
    let mut room = StringsRoom::new();
    let setup = arguments.setup();
    let neck = arguments.neck(&mut neck_room);
    let strings = arguments.strings();
    let mut lent = strings.lend(&mut room, arguments.number(), arguments.finger());
    let forces = arguments.forces();
    let mut book = arguments.book();
    let answer = step_booked(setup, neck, &mut lent, forces, &mut book);
    print_step(rt, answer, &lent);
    if answer.is_ok() {
        printing::book_best_effort(rt, book);
    }
    strings.print(rt, &lent);
}

// A call of a block: setup, heights, stiffness, first, second, contact, turn, finger, forces, samples.
pub fn answer_block(rt: &impl Print, mut arguments: Arguments) {
    let mut neck_room = NeckRoom::new();
    let mut room = StringsRoom::new();
    let mut forces_room = [0; MOST];
    let mut samples_room = [0.0; MOST];
    let setup = arguments.setup();
    let neck = arguments.neck(&mut neck_room);
    let strings = arguments.strings();
    let mut lent = strings.lend(&mut room, arguments.number(), arguments.finger());
    let forces = arguments.list().read(&mut forces_room);
    let samples_list = arguments.list();
    let samples = samples_list.read(&mut samples_room);
    let played = play_block(setup, neck, &mut lent, forces, samples);
    printing::text(rt, b"count ");
    let _ = print!(rt; "{}", played.count);
    printing::text(rt, b" refusal ");
    report::number(rt, played.stopped);
    report::turn_and_finger(rt, lent.turn, lent.finger);
    strings.print(rt, &lent);
    report::label(rt, samples_list.label);
    printing::samples_best_effort(rt, samples);
}
