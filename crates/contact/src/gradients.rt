// 01, 'Contact gradient', and 02, item 4: the gradients of all points. Roots are worked out of the pressed points alone, from a list of them, eight at a time.
ghost use Rattle.std.specs.Prelude.{◌≡◌, ℕ, ◌≤◌, length, get_or, replicate};
ghost use Rattle.integers.specs.Filled.{Filled, Begun};
ghost use Rattle.model.specs.Gradient.{root as root_of};
ghost use Rattle.contact.specs.Contacts.{OverNeck, gradients_at, gradients_in};
ghost use Rattle.contact.specs.Pressed.{AllPressed, number_at};

use crate::gradient::root_number;
use crate::pressed::{list_pressed, none_pressed};
use crate::root::root;
use model::Neck;
use model::bounds::{MOST_LISTED, MOST_POINTS};

// Writes the numbers q of the listed points, in the order of the list, over zeros.
fn write_numbers(neck: Neck, newer: &[i32], list: &[u8], numbers: &mut [u16; MOST_LISTED])
    requires { OverNeck neck.stiffness.now neck.heights.now newer.now
        × AllPressed neck.heights.now newer.now list.now × (length list.now ≤ 127) × (numbers.old ≡ replicate 128 0) }
    ensures { Begun 0 128 (λ j. number_at neck.entry.stiffness.now neck.entry.heights.now newer.now (get_or list.now j 0)) (length list.now) numbers.new }
{
    for (j, i) in list.iter().enumerate() {
        let i = *i as usize;
        let depth = neck.heights[i] - newer[i];
        numbers[j] = root_number(neck.stiffness[i], depth);
    }
}

// Writes the roots of the first `count` numbers over them. The loop goes on to a multiple of eight, so that the compiler has no numbers left to take one by one.
fn write_roots(count: usize, numbers: &mut [u16; MOST_LISTED])
    requires { (count ≤ 127) × (length numbers.old ≡ 128) × ((j : ℕ) → get_or numbers.old j 0 ≤ 1023) }
    ensures { Filled 0 128 (λ j. root_of (get_or numbers.old j 0)) count numbers.new }
{
    let end = (count + 7) / 8 * 8;
    for j in 0..end {
        let number = numbers[j];
        numbers[j] = root(number);
    }
}

// The gradients of all points, at the front.
pub fn point_gradients(neck: Neck, newer: &[i32]) -> [u8; MOST_POINTS]
    requires { OverNeck neck.stiffness.now neck.heights.now newer.now }
    ensures { (length result ≡ 127) × (gradients_in (length newer.now) result ≡ gradients_at neck.entry.stiffness.now neck.entry.heights.now newer.now) }
{
    let mut gradients = [0u8; MOST_POINTS];
    if none_pressed(neck.heights, newer) {
        return gradients;
    }
    let mut list = [0u8; MOST_LISTED];
    let count = list_pressed(neck.heights, newer, &mut list);
    let listed = &list[..count];
    let mut roots = [0u16; MOST_LISTED];
    write_numbers(neck, newer, listed, &mut roots);
    write_roots(count, &mut roots);
    for (j, i) in listed.iter().enumerate() {
        gradients[*i as usize] = roots[j] as u8;
    }
    gradients
}
