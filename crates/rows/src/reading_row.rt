// A reading for C.
ghost use Rattle.std.specs.Prelude.{◌≡◌};
ghost use Rattle.rows.specs.Rows.{reading_row};

use model::Reading;
use samples::fractions::double;

// The refusal; 1 where the string is pressed and 0 where it is free; the displacement, and the depth where it is pressed.
#[repr(C)]
#[derive(Clone, Copy)]
pub struct ReadingRow {
    pub refusal: u32,
    pub pressed: u32,
    pub displacement: f64,
    pub depth: f64,
}

// The row of an answer.
#[tactic(auto, unfolding(model::specs::Ranges::displacement_ok, model::specs::Ranges::inside))]
pub fn reading_row(answer: Reading) -> ReadingRow
    ensures { result ≡ reading_row answer }
{
    let none = double(0);
    match answer {
        Reading::Free(displacement) => ReadingRow {
            refusal: 0,
            pressed: 0,
            displacement,
            depth: none,
        },
        Reading::Pressed(displacement, depth) => ReadingRow {
            refusal: 0,
            pressed: 1,
            displacement,
            depth,
        },
        Reading::Refused(refusal) => ReadingRow {
            refusal,
            pressed: 0,
            displacement: none,
            depth: none,
        },
    }
}
