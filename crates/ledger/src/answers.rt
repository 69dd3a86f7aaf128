// An answer by its numbers.
ghost use Rattle.std.specs.Prelude.{◌≡◌};
ghost use Rattle.ledger.specs.Ledger.{refusal, acceptance};

use crate::Answer;

// A refusal with its place (rows 7 and 16 only), all counts 0.
pub fn refused(number: u32, place: u32) -> Answer
    ensures { result ≡ refusal number place }
{
    Answer {
        number,
        place,
        bytes: 0,
        count: 0,
    }
}

// An accepted answer.
pub fn accepted(bytes: u32, count: u32) -> Answer
    ensures { result ≡ acceptance bytes count }
{
    Answer {
        number: 0,
        place: 0,
        bytes,
        count,
    }
}
