// What a call answers: a refusal, with the file at fault, or a cost, a length and a count.
ghost use Rattle.std.specs.Prelude.{◌≡◌};
ghost use Rattle.definitions.specs.Answers.{refusal as refusal_of, accepted as accepted_of};
ghost use Rattle.definitions.specs.Refusals.{number};
ghost use Rattle.checks.specs.Refusing.{mark, file_mark, FoundIn};

use definitions::{Answer, Refusal};
use fields::Stopped;

// The file at fault.
#[derive(Clone, Copy, PartialEq, Eq)]
pub enum InFile {
    Chart,
    Rules,
    // A second diagram.
    More,
}

impl InFile {
    // Its mark in an answer.
    pub fn mark(self) -> u8
        ensures { result ≡ mark self }
    {
        match self {
            InFile::Chart => 1,
            InFile::Rules => 2,
            InFile::More => 3,
        }
    }
}

// Why a call is refused, the file at fault where one is, and the place there, else 0.
#[derive(Clone, Copy)]
pub struct Refused {
    pub refusal: Refusal,
    pub file: Option<InFile>,
    pub place: usize,
}

impl Refused {
    // No file is at fault.
    pub fn of_call(refusal: Refusal) -> Refused
        ensures { result ≡ record { refusal = refusal; file = None; place = 0 } }
    {
        Refused {
            refusal,
            file: None,
            place: 0,
        }
    }

    // The mark of the file at fault, 0 where none is.
    pub fn file_mark(self) -> u8
        ensures { result ≡ file_mark self.file }
    {
        match self.file {
            Some(file) => file.mark(),
            None => 0,
        }
    }

    // The answer that says so.
    pub fn answer(self, count: usize) -> Answer
        ensures { result ≡ refusal_of (number self.refusal) (file_mark self.file) self.place count }
    {
        refusal(
            self.refusal.number() as u32,
            self.file_mark() as u32,
            self.place,
            count,
        )
    }
}

// What was read of a file, or that the file is at fault.
pub fn in_file<T, S: Drop>(read: Result<T, Stopped<S>>, file: InFile) -> Result<T, Refused>
    ensures { FoundIn file read result }
{
    match read {
        Ok(value) => Ok(value),
        Err(stopped) => Err(Refused {
            refusal: stopped.fault.refusal,
            file: Some(file),
            place: stopped.fault.place,
        }),
    }
}

// An answer that refuses: it has cost 0 and length 0. An answer has numbers, not the enums: it is handed to C as six of them, and
// the promises of the calls say it so.
pub fn refusal(number: u32, file: u32, place: usize, count: usize) -> Answer
    ensures { result ≡ refusal_of number file place count }
{
    Answer {
        number,
        file,
        place,
        cost: 0,
        length: 0,
        count,
    }
}

// An answer that accepts: it has number, file and place 0.
pub fn accepted(cost: u32, length: usize, count: usize) -> Answer
    ensures { result ≡ accepted_of cost length count }
{
    Answer {
        number: 0,
        file: 0,
        place: 0,
        cost,
        length,
        count,
    }
}
