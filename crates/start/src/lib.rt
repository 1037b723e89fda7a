// 01, 'One step': the fresh start, with both strings and all contact variables zero, turn 0 and the finger at its two heights; and 02, item 6: its book.
// `finger` examines the heights.
#![tactic(auto)]

pub mod finger;

ghost use Rattle.std.specs.Prelude.{◌≡◌};
ghost use Rattle.model.specs.Answers.{start_result};
ghost use Rattle.model.specs.Refusal.{first_of, refusal_of};
ghost use Rattle.model.specs.Start.{start, start_rules};

use crate::finger::finger_ok;
use book::entering::new_book;
use energy::stored::stored_energy;
use model::refusal::Refusal;
use model::{Finger, Setup, Started, State};
use ranges::lengths::lengths_ok;
use setup::examine_setup;

// Clears the three lent buffers and answers turn, finger and book, or turns the call down and leaves them.
pub fn fresh_start(
    setup: Setup,
    first: &mut [i32],
    second: &mut [i32],
    contact: &mut [i32],
    height: i32,
    older: i32,
) -> Result<Started, Refusal>
    ensures { start_result result first.new second.new contact.new
        ≡ start setup first.old second.old contact.old height older }
{
    examine(setup, first, second, contact, height, older)?;
    first.fill(0);
    second.fill(0);
    contact.fill(0);
    let finger = Finger {
        newer: height,
        older,
        contact: 0,
    };
    let state = State {
        newer: first,
        older: second,
        contact,
        finger,
    };
    let stored = stored_energy(setup, state);
    Ok(Started {
        turn: 0,
        finger,
        book: new_book(stored),
    })
}

// Its refusal, if it has one.
#[tactic(auto, using(crate::proofs::Table::rows), unfolding(model::specs::Start::start_rules))]
fn examine(
    setup: Setup,
    first: &[i32],
    second: &[i32],
    contact: &[i32],
    height: i32,
    older: i32,
) -> Result<(), Refusal>
    ensures { refusal_of result ≡ first_of (start_rules setup first.now second.now contact.now height older) }
{
    examine_setup(setup)?;
    if !lengths_ok(setup, &[first.len(), second.len(), contact.len()]) {
        return Err(Refusal::BufferLength);
    }
    if !finger_ok(height, older) {
        return Err(Refusal::StartHeight);
    }
    Ok(())
}
