// A running checksum of 32 bits: a polynomial modulo the greatest prime of 32 bits.
use printing::{magnitude, single_bits};
use voice::{Book, Finger, Wide};

#[derive(Clone, Copy, Default)]
pub struct Checksum {
    pub sum: u32,
}

impl Checksum {
    // Enters a word.
    pub fn word(&mut self, word: u32) {
        self.sum = ((u64::from(self.sum) * 16777619 + u64::from(word)) % 4294967291) as u32;
    }

    // A number's sign and size.
    fn signed(&mut self, x: i32) {
        self.word(u32::from(x < 0));
        self.word(magnitude(x));
    }

    // A finger's newer height, older height and contact variable.
    pub fn finger(&mut self, finger: Finger) {
        self.signed(finger.newer);
        self.signed(finger.older);
        self.signed(finger.contact);
    }

    pub fn numbers(&mut self, numbers: &[i32]) {
        for number in numbers {
            self.signed(*number);
        }
    }

    // The halves of a word of 64 bits, the high one first.
    fn halves(&mut self, word: u64) {
        self.word((word >> 32) as u32);
        self.word((word % 4294967296) as u32);
    }

    // The words of a column, the high one first.
    fn column(&mut self, column: Wide) {
        self.halves(column.high.cast_unsigned());
        self.halves(column.low);
    }

    // The columns and the count of a book.
    pub fn book(&mut self, book: Book) {
        self.column(book.stored);
        self.column(book.work);
        self.column(book.loss);
        self.column(book.rounding);
        self.word(book.count);
    }

    // The bits of floats.
    pub fn samples(&mut self, samples: &[f32]) {
        for sample in samples {
            self.word(single_bits(*sample));
        }
    }
}
