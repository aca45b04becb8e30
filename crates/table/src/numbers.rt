// Document 01's number and value of an answer.
ghost use Rattle.std.specs.Prelude.{◌≡◌};
ghost use Rattle.table.specs.Answer.{number, value, refusal_number, cells_wanted};

use crate::{Answer, Refusal};

impl Refusal {
    // Its number in the papers' tables.
    pub fn number(self) -> usize
        ensures { result ≡ refusal_number self }
    {
        match self {
            Refusal::BadLength => 1,
            Refusal::BadCheck => 2,
            Refusal::BadKind => 3,
            Refusal::BadInputs => 4,
            Refusal::BadOutputs => 5,
            Refusal::BadOrder => 6,
            Refusal::BadContent => 7,
            Refusal::NoRow => 8,
            Refusal::NoSuch => 9,
            Refusal::ShortBuffer => 10,
            Refusal::NoTable => 21,
            Refusal::NoNetwork => 22,
            Refusal::TooSmall(_) => 23,
            Refusal::BadCells => 24,
            Refusal::ShortAnswers => 31,
            Refusal::NotCanonical => 32,
            Refusal::TooManyRecords => 33,
            Refusal::ShortGains => 34,
        }
    }

    // The cells wanted where the board is too small; else 0.
    pub fn wanted(self) -> usize
        ensures { result ≡ cells_wanted self }
    {
        match self {
            Refusal::TooSmall(cells) => cells,
            _ => 0,
        }
    }
}

// The number of the papers' tables; 0 of a success.
pub fn number_of(answer: Answer) -> usize
    ensures { result ≡ number answer }
{
    match answer {
        Ok(_) => 0,
        Err(refusal) => refusal.number(),
    }
}

// What a success answers, or the cells wanted where the board is too small; else 0.
pub fn value_of(answer: Answer) -> usize
    ensures { result ≡ value answer }
{
    match answer {
        Ok(found) => found,
        Err(refusal) => refusal.wanted(),
    }
}
