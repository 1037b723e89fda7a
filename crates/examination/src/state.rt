// 01, 'One step': the state that the turn selects of what is lent. Turn 0 means that the first string is newer, any other number the second.
ghost use Rattle.std.specs.Prelude.{◌≡◌};
ghost use Rattle.model.specs.Lending.{the_state, the_lent};
ghost use Rattle.model.specs.State.{state_of};

use model::{Finger, Lent, State};

// That of two strings, contact variables and finger.
pub fn state_at<'a>(
    turn: u32,
    first: &'a [i32],
    second: &'a [i32],
    contact: &'a [i32],
    finger: Finger,
) -> State<'a>
    ensures { the_state result ≡ state_of (record { first = first.now; second = second.now; contact = contact.now; turn = turn; finger = finger }) }
{
    if turn == 0 {
        State {
            newer: first,
            older: second,
            contact,
            finger,
        }
    } else {
        State {
            newer: second,
            older: first,
            contact,
            finger,
        }
    }
}

// That of what is lent.
pub fn state_of<'a>(lent: &'a Lent) -> State<'a>
    ensures { the_state result ≡ state_of (the_lent lent.now) }
{
    state_at(
        lent.turn,
        lent.first,
        lent.second,
        lent.contact,
        lent.finger,
    )
}
