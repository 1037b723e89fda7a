// 01, 'One step': the new finger, from its gradient and the moves of a step. Its height and contact variable have 64 bits until they are
// judged, since before 13 and 14 are judged a number may pass 32.
ghost use Rattle.std.specs.Prelude.{◌≡◌, ◌^◌, T, ◌+ℤ◌, ◌-ℤ◌, ◌*ℤ◌};
ghost use Rattle.integers.specs.Size.{◌within◌};
ghost use Rattle.laws.specs.MoveSizes.{move_size};
ghost use Rattle.model.specs.Ranges.{displacement_ok, contact_ok};

use crate::system::Moves;
use model::Finger;

// The finger's new height, w' + δw.
pub fn next_height(older: i32, delta: i64) -> i64
    requires { delta within 2 ^ 44 }
    ensures { result ≡ older +ℤ delta }
{
    (older as i64) + delta
}

// The finger's new contact variable, φ + g·(δ − δw).
pub fn next_finger_contact(contact: i32, gradient: i64, moves: Moves) -> i64
    requires { (gradient within 255) × (moves.delta within move_size) × (moves.finger_delta within 2 ^ 44) }
    ensures { result ≡ contact +ℤ gradient *ℤ (moves.delta -ℤ moves.finger_delta) }
{
    (contact as i64) + gradient * (moves.delta - moves.finger_delta)
}

// The finger's new height and contact variable, before they are judged.
#[derive(Clone, Copy)]
pub struct NewFinger {
    pub height: i64,
    pub contact: i64,
}

// The new finger, from its gradient g and the moves.
pub fn new_finger(finger: Finger, gradient: i64, moves: Moves) -> NewFinger
    requires { (gradient within 255) × (moves.delta within move_size) × (moves.finger_delta within 2 ^ 44) }
    ensures { result ≡ record { height = finger.older +ℤ moves.finger_delta; contact = finger.contact +ℤ gradient *ℤ (moves.delta -ℤ moves.finger_delta) } }
{
    let height = next_height(finger.older, moves.finger_delta);
    let contact = next_finger_contact(finger.contact, gradient, moves);
    NewFinger { height, contact }
}

// The finger after an accepted step: its new height and contact variable, and the newer height, which is now the older one.
pub fn next_finger(newer: i32, next: NewFinger) -> Finger
    requires { T (displacement_ok next.height) × T (contact_ok next.contact) }
    ensures { result ≡ record { newer = next.height; older = newer; contact = next.contact } }
{
    Finger {
        newer: next.height as i32,
        older: newer,
        contact: next.contact as i32,
    }
}
