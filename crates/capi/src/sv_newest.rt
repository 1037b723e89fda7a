// The newest string, for C.
ghost use Rattle.std.specs.Prelude.{◌≡◌};
ghost use Rattle.model.specs.State.{newest};

// `voice::newest`, by the buffer's number: 0 for the first, 1 for the second.
#[unsafe(no_mangle)]
pub extern "C" fn sv_newest(turn: u32) -> u32
    ensures { result ≡ newest turn 0 1 }
{
    if turn == 0 { 0 } else { 1 }
}
