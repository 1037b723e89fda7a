// The pieces of a text: its lines, or the words of a line.
ghost use Rattle.std.specs.Prelude.{length};
ghost use Rattle.std.specs.Iterator.{at_most};

// The pieces that are left, each with the byte that ends it, but perhaps the last.
#[derive(Clone, Copy)]
pub struct Pieces<'a> {
    pub rest: &'a [u8],
    pub end: u8,
}

impl<'a> Iterator for Pieces<'a> {
    type Item = &'a [u8];

    ghost remaining = { λ s. at_most (length s.rest.now) };

    fn next(&mut self) -> Option<&'a [u8]> {
        if self.rest.is_empty() {
            return None;
        }
        let end = self.end;
        let size = match self.rest.iter().position(|byte| *byte == end) {
            Some(at) => at + 1,
            None => self.rest.len(),
        };
        let (piece, rest) = self.rest.split_at(size);
        self.rest = rest;
        Some(piece)
    }
}
