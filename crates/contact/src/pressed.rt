// 01, 'Contact gradient': which points the neck presses: the depth is above 0, and the string lies below the neck.
ghost use Rattle.std.specs.Prelude.{◌≡◌, ◌≤◌, pos, length};
ghost use Rattle.std.specs.Int.Signed.{le_z};
ghost use Rattle.model.specs.Differences.{minus};
ghost use Rattle.model.specs.Ranges.{all};
ghost use Rattle.contact.specs.Pressed.{Listed};

use model::bounds::MOST_LISTED;

// No point is pressed. The scan has no early exit, so that the compiler takes several points at once.
pub fn none_pressed(heights: &[i32], newer: &[i32]) -> bool
    requires { length heights.now ≡ length newer.now }
    ensures { result ≡ all (λ d. le_z d (pos 0)) (minus heights.now newer.now) }
{
    let mut none = true;
    for i in 0..newer.len() {
        none &= heights[i] <= newer[i];
    }
    none
}

// Writes the indices of the pressed points at the front of `list`, and answers how many they are. Every index is written, and the next one over it where its
// point is not pressed: no branch goes by the data.
pub fn list_pressed(heights: &[i32], newer: &[i32], list: &mut [u8; MOST_LISTED]) -> usize
    requires { (length heights.now ≡ length newer.now) × (length newer.now ≤ 127) × (length list.old ≡ 128) }
    ensures { Listed heights.now newer.now (length newer.now) list.new result }
{
    let mut count = 0usize;
    for i in 0..newer.len() {
        list[count] = i as u8;
        if newer[i] < heights[i] {
            count += 1;
        }
    }
    count
}
