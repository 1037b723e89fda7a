// The line that is printed after each stretch.
use crate::state::{State, Strings};

// The sum of numbers.
fn sum(numbers: &[i32]) -> i64 {
    numbers
        .iter()
        .fold(0, |sum: i64, number| sum.wrapping_add(i64::from(*number)))
}

// The sums of strings and contact variables, and the finger.
fn strings(rt: &impl Print, strings: &Strings) {
    printing::text(rt, b" strings");
    printing::list(rt, &[sum(strings.first()), sum(strings.second())]);
    let _ = print!(rt; " contact {}", sum(strings.contact()));
    printing::finger_best_effort(rt, strings.finger);
}

// A print that fails is let go: what follows is still printed.
pub fn stretch(rt: &impl Print, run: u32, stretch: u32, state: &State) {
    let _ = print!(rt; "run {run}");
    let _ = print!(rt; " stretch {stretch}");
    let _ = print!(rt; " steps {}", state.steps);
    printing::text(rt, b" refused");
    printing::list(rt, &state.refused);
    let _ = print!(rt; " tension {}", state.setup.tension);
    let _ = print!(rt; " place {}", state.setup.finger.place);
    strings(rt, &state.strings);
    let _ = print!(rt; " turn {}", state.strings.turn);
    printing::book_best_effort(rt, state.book);
    printing::text(rt, b" samples");
    printing::samples_best_effort(rt, &state.samples[126..]);
    let _ = print!(rt; " checksum {:08x}", state.checksum.sum);
    let _ = println!(rt);
}
