// 02, item 3: before a step a contact variable becomes 0 wherever the depth is at most 0.
ghost use Rattle.std.specs.Prelude.{◌≡◌, suc, ◌<◌, ◌-ℤ◌, length};
ghost use Rattle.model.specs.Differences.{at};
ghost use Rattle.model.specs.Step.{kept};
ghost use Rattle.contact.specs.Contacts.{kept_contacts};

use model::State;

// What is kept of a contact variable where the depth is high − low.
pub fn contact_kept(high: i32, low: i32, variable: i32) -> i32
    ensures { result ≡ kept (high -ℤ low) variable }
{
    if low < high { variable } else { 0 }
}

// What is kept of that of the point at place i + 1.
pub fn kept_at(heights: &[i32], state: State, i: usize) -> i32
    requires { (length heights.now ≡ length state.newer.now) × (length state.contact.now ≡ length state.newer.now) × (i < length state.newer.now) }
    ensures { result ≡ at (kept_contacts heights.now state.entry.newer.now state.entry.contact.now) (suc i) }
{
    contact_kept(heights[i], state.newer[i], state.contact[i])
}
