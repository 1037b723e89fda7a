// 01, 'One step': the newest string, handed back as that one of the two lent buffers, itself and whole.
ghost use Rattle.std.specs.Prelude.{◌≡◌};
ghost use Rattle.model.specs.State as States;

// The reference itself: at turn 0 the first, at any other number the second.
pub fn newest<'a>(first: &'a [i32], second: &'a [i32], turn: u32) -> &'a [i32]
    ensures { result ≡ States.newest turn first.entry second.entry }
{
    if turn == 0 { first } else { second }
}
