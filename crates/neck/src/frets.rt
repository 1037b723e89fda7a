// 01, 'Laying the neck': whether the list of frets or their tip is wrong, 8 and 9.
ghost use Rattle.std.specs.Prelude.{◌≡◌, T, length};
ghost use Rattle.model.specs.Neck.{frets_wrong, tip_wrong};
ghost use Rattle.model.specs.Ranges.{all, between};

use model::Setup;
use model::bounds::MOST_FRETS;
use ranges::places::{increasing, places_ok};

// 8: more than 24 frets, a fret place out of range or not increasing.
pub fn frets_wrong(setup: Setup, frets: &[u32]) -> bool
    ensures { result ≡ frets_wrong setup frets.now }
{
    let placed = places_ok(setup, frets);
    let ordered = increasing(frets);
    ((MOST_FRETS < frets.len()) | !placed) | !ordered
}

// 9: the tip is above 0, or below the board at a fret. Asked where 8 has passed, so that each fret stands on the board.
pub fn tip_wrong(board: &[i32], frets: &[u32], tip: i32) -> bool
    requires { T (all (λ i. between 1 i (length board.now)) frets.now) }
    ensures { result ≡ tip_wrong board.now frets.now tip }
{
    let mut wrong = false;
    for fret in frets {
        wrong |= (0 < tip) | (tip < board[*fret as usize - 1]);
    }
    wrong
}
