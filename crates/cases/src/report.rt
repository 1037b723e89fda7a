// Parts of an answer. What can't be written is left out, and what follows is still tried.
use crate::call::List;
use std::fmt::Display;
use voice::{Finger, Refusal};

// The number of a call's refusal; 0 if there is none.
pub fn number(rt: &impl Print, refusal: Option<Refusal>) {
    let _ = print!(rt; "{}", refusal.map_or(0, Refusal::number));
}

pub fn turn_and_finger(rt: &impl Print, turn: u32, finger: Finger) {
    printing::text(rt, b" turn ");
    let _ = print!(rt; "{turn}");
    printing::finger_best_effort(rt, finger);
}

// The label of a list, behind a space: a word is printed up to its first byte that is no larger than a space.
pub fn label(rt: &impl Print, label: &[u8]) {
    printing::text(rt, b" ");
    match label.iter().position(|byte| *byte <= b' ') {
        Some(end) => printing::text(rt, &label[..end]),
        None => printing::text(rt, label),
    }
}

// A list of a call, as it is now, under its label.
pub fn list<T: Display>(rt: &impl Print, list: List, numbers: &[T]) {
    label(rt, list.label);
    printing::list(rt, numbers);
}
