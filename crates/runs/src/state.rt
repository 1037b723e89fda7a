// How far a run has come: what the voice keeps between two calls, the generator, what was counted, and the checksum.
ghost use Rattle.std.specs.Prelude.{◌≤◌};

use crate::checksum::Checksum;
use crate::generator::Generator;
use voice::{Book, Finger, Lent, Refusal, Setup};

// How many points a string has; 127 for one that is too long.
pub fn points(segments: u32) -> usize
    ensures { result ≤ 127 }
{
    segments.saturating_sub(1).min(127) as usize
}

// What is lent to the voice. A string of fewer than 127 points has them in front.
#[derive(Clone, Copy)]
pub struct Strings {
    first: [i32; 127],
    second: [i32; 127],
    contact: [i32; 127],
    segments: u32,
    pub turn: u32,
    pub finger: Finger,
}

impl Strings {
    pub fn lend(&mut self) -> Lent<'_> {
        let points = points(self.segments);
        let turn = self.turn;
        let finger = self.finger;
        let first = &mut self.first;
        let second = &mut self.second;
        let contact = &mut self.contact;
        Lent {
            first: &mut first[..points],
            second: &mut second[..points],
            contact: &mut contact[..points],
            turn,
            finger,
        }
    }

    pub fn first(&self) -> &[i32] {
        &self.first[..points(self.segments)]
    }

    pub fn second(&self) -> &[i32] {
        &self.second[..points(self.segments)]
    }

    pub fn contact(&self) -> &[i32] {
        &self.contact[..points(self.segments)]
    }
}

// The refusals that are counted: those of bends, of slides and of steps.
pub const COUNTED: [Refusal; 6] = [
    Refusal::Coefficient,
    Refusal::CoefficientSum,
    Refusal::Place,
    Refusal::Force,
    Refusal::NewDisplacement,
    Refusal::NewContact,
];

#[derive(Clone, Copy)]
pub struct State {
    pub generator: Generator,
    pub setup: Setup, // the newest
    pub strings: Strings,
    pub samples: [f32; 128], // of the last 64 frames
    pub booked: bool, // whether steps and bends are
    pub book: Book, // with those since the last fresh start, where they are
    pub steps: u32, // accepted
    pub refused: [u32; 6], // calls, by the refusals that are counted
    pub refusal: Option<Refusal>, // of the last call
    pub checksum: Checksum,
}

impl State {
    // Nothing yet.
    pub fn new(generator: Generator, setup: Setup) -> State {
        State {
            generator,
            setup,
            strings: Strings {
                first: [0; 127],
                second: [0; 127],
                contact: [0; 127],
                segments: setup.segments,
                turn: 0,
                finger: Finger::default(),
            },
            samples: [0.0; 128],
            booked: false,
            book: Book::default(),
            steps: 0,
            refused: [0; 6],
            refusal: None,
            checksum: Checksum::default(),
        }
    }

    // Notes that a call was refused, or that it was not.
    pub fn note(&mut self, refusal: Option<Refusal>) {
        self.refusal = refusal;
        self.checksum.word(refusal.map_or(0, Refusal::number));
        for (count, counted) in self.refused.iter_mut().zip(COUNTED.iter()) {
            if refusal == Some(*counted) {
                *count = count.wrapping_add(1);
            }
        }
    }

    // Enters turn, book, finger, strings, contact variables and samples in the checksum.
    pub fn sum_up(&mut self) {
        self.checksum.word(self.strings.turn);
        self.checksum.book(self.book);
        self.checksum.finger(self.strings.finger);
        self.checksum.numbers(self.strings.first());
        self.checksum.numbers(self.strings.second());
        self.checksum.numbers(self.strings.contact());
        self.checksum.samples(&self.samples);
    }
}
