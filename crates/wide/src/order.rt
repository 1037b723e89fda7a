// The order of wide numbers.
ghost use Rattle.std.specs.Prelude.{◌≡◌};
ghost use Rattle.std.specs.Int.Signed.{le_z};
ghost use Rattle.model.specs.Wide.{value};

use model::Wide;

// a is at most b: the order of the words, high before low, is that of the numbers.
#[tactic(auto, using(std::proofs::lemmas::Int::ints, std::proofs::lemmas::Bool::Decides::nat_tests))]
pub fn at_most(a: Wide, b: Wide) -> bool
    ensures { result ≡ le_z (value a) (value b) }
{
    a <= b
}
