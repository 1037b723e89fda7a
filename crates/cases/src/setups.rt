// Calls of a setup and of its changes: whether it is accepted, a bend, a bend that is booked, and a slide.
use crate::call::Arguments;
use crate::report;
use crate::room::StringsRoom;
use voice::{Lent, Refusal, Setup, bend, bend_booked, check_setup, slide};

// A change was accepted: the new setup's eleven fields, in 01's order.
fn print_changed(rt: &impl Print, setup: Setup) {
    printing::text(rt, b"0");
    printing::text(rt, b" setup");
    printing::list(
        rt,
        &[
            setup.segments,
            setup.tension,
            setup.stiffness,
            setup.viscous,
            setup.plain,
            u32::from(setup.finger.stiffness),
            setup.finger.mass,
            setup.finger.place,
            setup.pluck_place,
            setup.bridge_place,
            setup.neck_place,
        ],
    );
}

fn print_change(rt: &impl Print, answer: Result<Setup, Refusal>) {
    match answer {
        Ok(setup) => print_changed(rt, setup),
        Err(refusal) => report::number(rt, Some(refusal)),
    }
}

// A call of setup: setup.
pub fn answer_setup(rt: &impl Print, mut arguments: Arguments) {
    report::number(rt, check_setup(arguments.setup()).err());
}

// A call of a bend: setup, tension.
pub fn answer_bend(rt: &impl Print, mut arguments: Arguments) {
    print_change(rt, bend(arguments.setup(), arguments.number()));
}

// A call of a slide: setup, place.
pub fn answer_slide(rt: &impl Print, mut arguments: Arguments) {
    print_change(rt, slide(arguments.setup(), arguments.number()));
}

// A call of a booked bend: setup, tension, first, second, contact, turn, finger, book.
pub fn answer_bend_booked(rt: &impl Print, mut arguments: Arguments) {
    let mut room = StringsRoom::new();
    let setup = arguments.setup();
    let tension = arguments.number();
    let strings = arguments.strings();
    let Lent {
        first,
        second,
        contact,
        turn,
        finger,
    } = strings.lend(&mut room, arguments.number(), arguments.finger());
    let mut book = arguments.book();
    let answer = bend_booked(
        setup, tension, first, second, contact, turn, finger, &mut book,
    );
    print_change(rt, answer);
    if answer.is_ok() {
        printing::book_best_effort(rt, book);
    }
}
