// A block's answer for C.
ghost use Rattle.std.specs.Prelude.{◌≡◌};
ghost use Rattle.model.specs.Refusal.{stopped_by};

use model::{Finger, Lent, Played};

// The number of steps made, the refusal that stopped the block, 0 where none did, and the turn and the finger after it.
#[repr(C)]
#[derive(Clone, Copy)]
pub struct BlockRow {
    pub count: usize,
    pub refusal: u32,
    pub turn: u32,
    pub finger: Finger,
}

// The row of what was played, with turn and finger as they are after the call.
pub fn block_row(played: Played, lent: &Lent) -> BlockRow
    ensures { result ≡ record { count = played.count; refusal = stopped_by played.stopped; turn = lent.now.turn; finger = lent.now.finger } }
{
    let refusal = match played.stopped {
        Some(refusal) => refusal.number(),
        None => 0,
    };
    BlockRow {
        count: played.count,
        refusal,
        turn: lent.turn,
        finger: lent.finger,
    }
}
