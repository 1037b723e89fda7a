// A call: an operation's name, then its arguments. An argument is a list: a label, then whole numbers. A space stands between any two words.
ghost use Rattle.std.specs.Prelude.{length};
ghost use Rattle.std.specs.Iterator.{at_most};

use crate::number::Number;
use crate::pieces::Pieces;

// What is called.
#[derive(Clone, Copy)]
pub enum Operation {
    Setup,
    Bend,
    BendBooked,
    Slide,
    Neck,
    Start,
    Step,
    StepBooked,
    Block,
    Newest,
    Reading,
}

impl Operation {
    // The operation of this name.
    fn parse(name: &[u8]) -> Option<Operation> {
        match name {
            b"setup" => Some(Operation::Setup),
            b"bend" => Some(Operation::Bend),
            b"bend_booked" => Some(Operation::BendBooked),
            b"slide" => Some(Operation::Slide),
            b"neck" => Some(Operation::Neck),
            b"start" => Some(Operation::Start),
            b"step" => Some(Operation::Step),
            b"step_booked" => Some(Operation::StepBooked),
            b"block" => Some(Operation::Block),
            b"newest" => Some(Operation::Newest),
            b"reading" => Some(Operation::Reading),
            _ => None,
        }
    }
}

// How long an operation's name is at most.
const LONGEST_NAME: usize = 11;

// A line's call.
#[derive(Clone, Copy)]
pub struct Call<'a> {
    pub operation: Operation,
    pub arguments: Arguments<'a>,
}

impl<'a> Call<'a> {
    // None where no operation has the name that stands before the first space.
    pub fn parse(line: &'a [u8]) -> Option<Call<'a>> {
        let end = line
            .iter()
            .take(LONGEST_NAME + 1)
            .position(|byte| *byte == b' ')?;
        let operation = Operation::parse(&line[..end])?;
        let words = Pieces {
            rest: &line[end + 1..],
            end: b' ',
        };
        Some(Call {
            operation,
            arguments: Arguments { words },
        })
    }
}

// A list has at most so many numbers: the word behind them is taken for a label.
const MOST_NUMBERS: usize = 1023;

// Whether a list's numbers end before this text: it starts with a label.
fn starts_with_label(text: &[u8]) -> bool {
    text.first().is_some_and(|byte| *byte > b'9')
}

// The arguments that are left.
#[derive(Clone, Copy)]
pub struct Arguments<'a> {
    words: Pieces<'a>,
}

impl<'a> Arguments<'a> {
    // The next list; an empty one, with an empty label, if there is none.
    pub fn list(&mut self) -> List<'a> {
        let found = self
            .words
            .by_ref()
            .take(MOST_NUMBERS)
            .find(|word| starts_with_label(word));
        let label = found.or_else(|| self.words.next()).unwrap_or(b"");
        List {
            label,
            words: self.words,
        }
    }

    // The first number of the next list.
    pub fn number<T: Number>(&mut self) -> T {
        self.list().number()
    }
}

// A list: the word that is its label, and the numbers that are left of it, as words.
#[derive(Clone, Copy)]
pub struct List<'a> {
    pub label: &'a [u8],
    words: Pieces<'a>,
}

impl<'a> List<'a> {
    // The next number; 0 if there is none.
    pub fn number<T: Number>(&mut self) -> T {
        T::read(self.next().unwrap_or(b""))
    }

    // Writes the numbers to the front of the room, as many of them as fit there, and answers that part.
    pub fn read<'b, T: Number>(self, room: &'b mut [T]) -> &'b mut [T] {
        let count = self.take(room.len()).count();
        let numbers = &mut room[..count];
        for (number, word) in numbers.iter_mut().zip(self) {
            *number = T::read(word);
        }
        numbers
    }
}

impl<'a> Iterator for List<'a> {
    type Item = &'a [u8];

    ghost remaining = { λ s. at_most (length s.words.rest.now) };

    fn next(&mut self) -> Option<&'a [u8]> {
        if starts_with_label(self.words.rest) {
            return None;
        }
        self.words.next()
    }
}
