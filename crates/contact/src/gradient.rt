// 01, 'Contact gradient': the gradient for a stiffness and a depth.
ghost use Rattle.std.specs.Prelude.{◌≡◌, pos, ◌<ℤ◌};
ghost use Rattle.model.specs.Gradient as Gradient;
ghost use Rattle.contact.specs.Contacts.{root_number};

use crate::root::root;
use model::bounds::{DEPTH_UNIT, LAST_NUMBER};

// The number q of a depth above 0, whose root is the gradient: the last one for all beyond it.
pub fn root_number(stiffness: u16, depth: i32) -> u16
    requires { pos 0 <ℤ depth }
    ensures { result ≡ root_number stiffness depth }
{
    let q = (stiffness as u64) * (depth as u64) / DEPTH_UNIT;
    if q < LAST_NUMBER {
        q as u16
    } else {
        LAST_NUMBER as u16
    }
}

// The gradient.
pub fn gradient(stiffness: u16, depth: i32) -> i64
    ensures { result ≡ Gradient.gradient stiffness depth }
{
    if depth <= 0 {
        return 0;
    }
    let q = root_number(stiffness, depth);
    root(q) as i64
}
