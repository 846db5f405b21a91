// What a call answers that writes a file into a lent buffer, after every other check.
#![tactic(auto)]

ghost use Rattle.std.specs.Prelude.{◌≡◌};
ghost use Rattle.definitions.specs.Answers.{file_answer};

use checks::{Refused, accepted};
use definitions::{Answer, Refusal};

// For a file of so many bytes and a buffer of `room` bytes: 7 where the buffer is too short.
#[tactic(auto, unfolding(definitions::specs::Answers::file_answer, definitions::specs::Basics::pick))]
pub fn file_answer(bytes: usize, room: usize) -> Answer
    ensures { result ≡ file_answer bytes room }
{
    if room < bytes {
        return Refused::of_call(Refusal::ShortSlice).answer(0);
    }
    accepted(0, bytes, 0)
}
