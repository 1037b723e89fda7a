// 01, 'Energy': a = u − v, of newer string u and older string v, and Σ a² over the points.
ghost use Rattle.std.specs.Prelude.{◌≡◌};
ghost use Rattle.model.specs.Differences.{minus, dot};
ghost use Rattle.laws.specs.EnergySizes.{Strings};

use crate::lines::Line;
use crate::squares::squares;

// a, by both strings.
#[derive(Clone, Copy)]
pub struct Change<'a> {
    pub newer: &'a [i32],
    pub older: &'a [i32],
}

impl Line for Change<'_> {
    ghost numbers = { λ x. minus x.newer.now x.older.now };

    ghost ready = { λ x. Strings x.newer.now x.older.now };

    fn number(&self, i: usize) -> i32 {
        let own = self.newer[i];
        let old = self.older[i];
        own - old
    }
}

pub fn changes(newer: &[i32], older: &[i32]) -> i64
    requires { Strings newer.now older.now }
    ensures { result ≡ dot (minus newer.now older.now) (minus newer.now older.now) }
{
    squares(Change { newer, older }, newer.len())
}
