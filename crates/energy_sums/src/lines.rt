// Numbers by their index, as a sum over the points reads them: those of a lent slice, or what is worked out of several slices as it is read.
ghost use Rattle.std.specs.Prelude.{◌≡◌, List, ℤ, suc, ◌<◌, ⊤, length};
ghost use Rattle.model.specs.Differences.{at};

// `numbers` is the whole list of them, `ready` what reading one asks.
pub trait Line {
    ghost numbers: { Self → List ℤ };

    ghost ready: { Self → Type 0 };

    fn number(&self, i: usize) -> i32
        requires { ready self.now × (i < length (numbers self.now)) }
        ensures { result ≡ at (numbers self.now) (suc i) };
}

// A slice by its own numbers.
impl Line for &[i32] {
    ghost numbers = { λ x. x.now };

    ghost ready = { λ x. ⊤ };

    fn number(&self, i: usize) -> i32 {
        self[i]
    }
}
