// Numbers, the bits of floats, lists, samples, a finger and a book as text. What answers an `io::Result` ends at a print that fails, and answers its error.
// The forms without a result (`text`, `list` and those called best effort) leave out what can't be written and still try what follows, as the test programs do.
#![tactic(auto)]

ghost use Rattle.std.specs.Prelude.{◌≡◌, nat_abs};

use model::{Book, Finger, Wide};
use std::fmt::{Display, Formatter};
use std::{fmt, io};

#[cfg(test)]
mod tests;

// The size of a number, without its sign.
pub fn magnitude(x: i32) -> u32
    ensures { result ≡ nat_abs x }
{
    x.unsigned_abs()
}

// The bits of a float; all ones for a NaN, whose bits are not told.
pub fn single_bits(x: f32) -> u32 {
    if x.is_nan() { u32::MAX } else { x.to_bits() }
}

pub fn double_bits(x: f64) -> u64 {
    if x.is_nan() { u64::MAX } else { x.to_bits() }
}

// A float by its bits in hexadecimal, the highest digit first.
#[derive(Drop)]
pub struct Bits<F>(pub F);

impl Display for Bits<f32> {
    fn fmt<W: fmt::Write>(&self, f: &mut Formatter<W>) -> fmt::Result {
        write!(f, "{:08x}", single_bits(self.0))
    }
}

impl Display for Bits<f64> {
    fn fmt<W: fmt::Write>(&self, f: &mut Formatter<W>) -> fmt::Result {
        write!(f, "{:016x}", double_bits(self.0))
    }
}

// A list: each element behind a space.
#[derive(Drop)]
pub struct Listed<'a, T>(pub &'a [T]);

impl<T: Display> Display for Listed<'_, T> {
    fn fmt<W: fmt::Write>(&self, f: &mut Formatter<W>) -> fmt::Result {
        for element in self.0 {
            write!(f, " {element}")?;
        }
        Ok(())
    }
}

// Samples by their bits, each behind a space.
pub fn samples(rt: &impl Print, samples: &[f32]) -> io::Result<()> {
    for sample in samples {
        print!(rt; " {}", Bits(*sample))?;
    }
    Ok(())
}

// A number of 128 bits by its words, in hexadecimal, each behind a space, the high one first.
#[derive(Drop)]
struct HexWords(Wide);

impl Display for HexWords {
    fn fmt<W: fmt::Write>(&self, f: &mut Formatter<W>) -> fmt::Result {
        let high = self.0.high.cast_unsigned();
        let low = self.0.low;
        write!(f, " {high:016x} {low:016x}")
    }
}

// A finger: its newer height, older height and contact variable.
pub fn finger(rt: &impl Print, finger: Finger) -> io::Result<()> {
    print!(rt;
        " finger {} {} {}",
        finger.newer, finger.older, finger.contact
    )
}

// A book: the words of its four columns, and its count.
pub fn book(rt: &impl Print, book: Book) -> io::Result<()> {
    print!(rt;
        " book{}{}{}{} {}",
        HexWords(book.stored),
        HexWords(book.work),
        HexWords(book.loss),
        HexWords(book.rounding),
        book.count
    )
}

// A text as it is, with no format, by best effort.
pub fn text(rt: &impl Print, text: &[u8]) {
    let _ = rt.write_all(text);
}

// A list by best effort: each element behind a space, in a print of its own, so that one that fails loses no other.
pub fn list<T: Display>(rt: &impl Print, numbers: &[T]) {
    for number in numbers {
        let _ = print!(rt; " {number}");
    }
}

// Samples as above, by best effort.
pub fn samples_best_effort(rt: &impl Print, samples: &[f32]) {
    for sample in samples {
        let _ = print!(rt; " {}", Bits(*sample));
    }
}

// A number of 128 bits as above, by best effort.
fn words(rt: &impl Print, number: Wide) {
    let _ = print!(rt; " {:016x}", number.high.cast_unsigned());
    let _ = print!(rt; " {:016x}", number.low);
}

// A finger as above, by best effort.
pub fn finger_best_effort(rt: &impl Print, finger: Finger) {
    text(rt, b" finger");
    list(rt, &[finger.newer, finger.older, finger.contact]);
}

// A book as above, by best effort.
pub fn book_best_effort(rt: &impl Print, book: Book) {
    text(rt, b" book");
    words(rt, book.stored);
    words(rt, book.work);
    words(rt, book.loss);
    words(rt, book.rounding);
    let _ = print!(rt; " {}", book.count);
}
