// 6, of every entry that is lent buffers: a board, neck, string or contact buffer is N − 1 long.
ghost use Rattle.std.specs.Prelude.{◌≡◌, ◌≤◌};
ghost use Rattle.model.specs.Ranges.{all};
ghost use Rattle.model.specs.Setup.{N, length_ok};

use model::Setup;

// Each of these buffers is so long.
#[tactic(auto, unfolding(model::specs::Setup::length_ok))]
pub fn lengths_ok(setup: Setup, lengths: &[usize]) -> bool
    requires { 2 ≤ N setup }
    ensures { result ≡ all (length_ok setup) lengths.now }
{
    let points = (setup.segments - 1) as usize;
    let mut ok = true;
    for length in lengths {
        ok &= *length == points;
    }
    ok
}
