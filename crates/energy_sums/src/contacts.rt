// 01, 'Energy', and 02, item 3: the squares of the contact variables, of all and of those that are cleared before a step.
ghost use Rattle.std.specs.Prelude.{◌≡◌, ◌≤◌, T, pos, ◌-ℤ◌, length};
ghost use Rattle.model.specs.Differences.{dot};
ghost use Rattle.model.specs.Ranges.{all, inside, contact_ok};
ghost use Rattle.model.specs.Step.{let_go};
ghost use Rattle.energy_sums.specs.Contacts.{Contacts, cleared_contacts};

use crate::lines::Line;
use crate::squares::squares;
use ranges::numbers::all_inside_i32;

// No number is other than 0.
fn all_zero(numbers: &[i32]) -> bool
    ensures { result ≡ all (λ x. inside (pos 0) x (pos 0)) numbers.now }
{
    all_inside_i32(numbers, 0, 0)
}

// Σ ψ². A string that touches nothing has no contact variable other than 0: a scan for that is quicker than the squares.
pub fn contact_sum(contact: &[i32]) -> i64
    requires { (length contact.now ≤ 127) × T (all contact_ok contact.now) }
    ensures { result ≡ dot contact.now contact.now }
{
    if all_zero(contact) {
        return 0;
    }
    squares(contact, contact.len())
}

// What is let go of a contact variable where the depth is high − low: 0 where it is above 0.
pub fn let_go(high: i32, low: i32, variable: i32) -> i32
    ensures { result ≡ let_go (high -ℤ low) variable }
{
    if low < high { 0 } else { variable }
}

// What is let go at each point, of a neck's heights, the newer string and the contact variables.
#[derive(Clone, Copy)]
struct Cleared<'a> {
    heights: &'a [i32],
    newer: &'a [i32],
    contact: &'a [i32],
}

impl Line for Cleared<'_> {
    ghost numbers = { λ x. cleared_contacts x.heights.now x.newer.now x.contact.now };

    ghost ready = { λ x. Contacts x.heights.now x.newer.now x.contact.now };

    fn number(&self, i: usize) -> i32 {
        let height = self.heights[i];
        let own = self.newer[i];
        let variable = self.contact[i];
        let_go(height, own, variable)
    }
}

// Σ of the squares of the contact variables of the points that are cleared; none is other than 0 where no variable is.
pub fn cleared_sum(heights: &[i32], newer: &[i32], contact: &[i32]) -> i64
    requires { Contacts heights.now newer.now contact.now }
    ensures { result ≡ dot (cleared_contacts heights.now newer.now contact.now) (cleared_contacts heights.now newer.now contact.now) }
{
    if all_zero(contact) {
        return 0;
    }
    squares(
        Cleared {
            heights,
            newer,
            contact,
        },
        contact.len(),
    )
}
