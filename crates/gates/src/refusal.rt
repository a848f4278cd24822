// Why a call declines.
ghost use Rattle.std.specs.Prelude.{◌≡◌, ◌≤◌, OnOk};
ghost use Rattle.gates.specs.Refusals.{number, answer, short};

use thiserror::Error;

#[derive(Clone, Copy, PartialEq, Eq, Debug, Error)]
pub enum Refusal {
    // A sheet is empty, too long or unfinished, has bytes after its last body, or a line not of its form.
    #[error("the sheet or a line of it is not of its form")]
    WrongForm,
    // A contents line has a wrong kind, number of lines, count or first line.
    #[error("a contents line is wrong")]
    WrongContents,
    // A number of lines is outside its limits, or a piece has a wrong number of rows or images.
    #[error("the number of lines or of rows is wrong")]
    WrongSize,
    // This row word or image is 2^n or more, and it is the first.
    #[error("row {row} is too large for the lines")]
    WideRow { row: usize },
    // A word is 2^n or more.
    #[error("the word is too large for the lines")]
    WideWord,
    // Two line counts differ.
    #[error("the numbers of lines differ")]
    LinesDiffer,
    // A gate that is handed in, or that a book holds, is illegal.
    #[error("a gate is illegal on these lines")]
    IllegalGate,
    // Two words share an image: b is the smallest word whose image a smaller word shares, and a is that word.
    #[error("the words {a} and {b} share an image")]
    SharedImage { a: u64, b: u64 },
    // This end has nothing to take back.
    #[error("this end has nothing to take back")]
    NothingFound,
    // The piece is short of identity.
    #[error("the piece is short of identity")]
    NotIdentity,
    // A book, a taker or a draft of an answer sheet has too few free places.
    #[error("{needed} places are needed and {free} are free")]
    TooFewPlaces { needed: usize, free: usize },
    // An answer does not fit the bytes that it may use, or has a body of 2^32 lines or more.
    #[error("the answer does not fit")]
    AnswerTooLong,
}

impl Refusal {
    // The number by which laboratories know the reason: a method, since a plain conversion would not say which number it is.
    pub fn number(self) -> u8
        ensures { result ≡ number self }
    {
        match self {
            Refusal::WrongForm => 1,
            Refusal::WrongContents => 2,
            Refusal::WrongSize => 3,
            Refusal::WideRow { .. } => 4,
            Refusal::WideWord => 5,
            Refusal::LinesDiffer => 6,
            Refusal::IllegalGate => 7,
            Refusal::SharedImage { .. } => 8,
            Refusal::NothingFound => 9,
            Refusal::NotIdentity => 10,
            Refusal::TooFewPlaces { .. } => 11,
            Refusal::AnswerTooLong => 12,
        }
    }
}

// Declines where fewer places are free than are needed.
pub fn enough_places(needed: usize, free: usize) -> Result<(), Refusal>
    ensures answer { result ≡ answer (short needed free) }
    ensures enough { OnOk result (needed ≤ free) }
{
    if free < needed {
        return Err(Refusal::TooFewPlaces { needed, free });
    }
    Ok(())
}
