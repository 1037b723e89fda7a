// Answers that are a number for C: of a setup that is examined and of a neck that is laid.
ghost use Rattle.std.specs.Prelude.{◌≡◌};
ghost use Rattle.model.specs.Refusal.{answer_of};
ghost use Rattle.rows.specs.Rows.{number};

use model::refusal::Refusal;

// The number of an answer: the refusal's, 0 where it is accepted.
pub fn refusal_number<T: Copy>(answer: Result<T, Refusal>) -> u32
    ensures { result ≡ number (answer_of answer) }
{
    match answer {
        Ok(_) => 0,
        Err(refusal) => refusal.number(),
    }
}
