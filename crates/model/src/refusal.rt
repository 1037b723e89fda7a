// 01, 'What each operation turns down', and 02: the refusals, by name and by number.
ghost use Rattle.std.specs.Prelude.{◌≡◌};
ghost use Rattle.model.specs.Refusal.{number};

use std::error::Error;
use std::fmt;

// Why a call is turned down. Its number is that of the documents.
#[derive(Clone, Copy, Debug, PartialEq, Eq)]
pub enum Refusal {
    Segments = 1, // N out of range
    Coefficient = 2, // L is 0, or L, M, S or Z too large
    CoefficientSum = 3, // L + 4M + 2S too large
    Place = 4, // out of range
    Mass = 5, // the finger's, out of range
    BufferLength = 6, // a lent buffer's
    Height = 7, // of the board or of the neck, out of range
    Frets = 8, // too many, or a place out of range or not increasing
    Tip = 9, // above 0, or below the board at a fret
    StartHeight = 10, // the finger's height or older height at a fresh start
    State = 11, // a displacement, finger height or contact variable that is passed in
    Force = 12, // out of range
    NewDisplacement = 13, // or the finger's new height
    NewContact = 14, // a new contact variable
    ForceCount = 15, // odd, or more than there are samples
    BookCount = 16, // at its largest
    BookColumn = 17, // out of range
    FretCount = 18, // more frets than may be asked for
    FretPlace = 19, // 0, or that of the fret before
}

impl Refusal {
    // Its number.
    pub fn number(self) -> u32
        ensures { result ≡ number self }
    {
        self as u32
    }
}

impl fmt::Display for Refusal {
    fn fmt<W: fmt::Write>(&self, f: &mut fmt::Formatter<W>) -> fmt::Result {
        f.write_str(match self {
            Refusal::Segments => "the number of segments is out of range",
            Refusal::Coefficient => "the tension is 0, or a coefficient is too large",
            Refusal::CoefficientSum => "tension, stiffness and viscous loss are too large together",
            Refusal::Place => "a place is not on the string",
            Refusal::Mass => "the finger's mass is out of range",
            Refusal::BufferLength => "a buffer is not as long as it must be",
            Refusal::Height => "a height of the board or the neck is out of range",
            Refusal::Frets =>
                "there are too many frets, or their places do not increase along the string",
            Refusal::Tip => "the frets' tip is above 0, or below the board at a fret",
            Refusal::StartHeight => "a height of the finger at a fresh start is out of range",
            Refusal::State =>
                "a displacement, a finger height or a contact variable is out of range",
            Refusal::Force => "a force is out of range",
            Refusal::NewDisplacement => "a new displacement would be out of range",
            Refusal::NewContact => "a new contact variable would be out of range",
            Refusal::ForceCount => "the number of forces is odd, or larger than that of samples",
            Refusal::BookCount => "the book's count is at its largest",
            Refusal::BookColumn => "a column of the book is out of range",
            Refusal::FretCount => "too many frets are asked for",
            Refusal::FretPlace => "a fret falls on the nut or on the fret before it",
        })
    }
}

impl Error for Refusal {}
