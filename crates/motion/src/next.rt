// 01, 'One step': the new string, from the moves of a step. Before 13 is judged the new string may be out of 01's range, but 32 bits hold it.
ghost use Rattle.std.specs.Prelude.{◌≡◌, ◌≤◌, length, take};
ghost use Rattle.laws.specs.MoveSizes.{move_size};
ghost use Rattle.laws.specs.Sizes.{Bounded};
ghost use Rattle.model.specs.Differences.{plus};

use model::bounds::MOST_POINTS;

// Writes the new string, v + δ, over the moves at the front of `string`.
pub fn next_string(older: &[i32], string: &mut [i32; MOST_POINTS])
    requires { (length older.now ≤ 127) × (length string.old ≡ 127)
        × Bounded older.now 1048576 × Bounded (take (length older.now) string.old) move_size }
    ensures { (length string.new ≡ 127)
        × (take (length older.now) string.new ≡ plus older.now (take (length older.now) string.old)) }
{
    for (i, own) in older.iter().enumerate() {
        string[i] = own + string[i];
    }
}
