// The crate is its definitions (specs/) and their laws (proofs/). Its types are those of an answer, as the calls give it and as C reads it.
#![tactic(auto)]

ghost use Rattle.std.specs.Prelude.{◌≡◌};
ghost use Rattle.ledger.specs.Answers.{refusal_number, bad_place, unwritten, answer_of};

pub mod answers;

use option_reply::WriteFault;

// What a call answers, in document 01's words: the number of its refusal or 0, the place of a bad suboption (rows 7 and 16), the
// bytes written, and the count of entries. What a call has none of is 0.
// Stays: the C interface reads a number and the values beside it.
#[repr(C)]
#[derive(Clone, Copy)]
pub struct Answer {
    pub number: u32,
    pub place: u32,
    pub bytes: u32,
    pub count: u32,
}

// The rows of the refusals in the order of their numbers, 1 to 20; rows 7 and 16 with the place of the bad suboption.
#[derive(Clone, Copy, Debug, PartialEq, Eq)]
pub enum Refusal {
    ReplyTooShort,
    NoClient,
    TimeBeforeLast,
    TimeTooLate,
    NotSound,
    NotTheOption,
    BadFraming(u32),
    WrongSuboptions,
    TableFull,
    NoFreePrefix,
    NothingFound,
    BadTerms,
    OutsideRules,
    BufferTooShort,
    SheetDiffers,
    BadField(u32),
    NameTooLong,
    NamesLost,
    NoSuchPool,
    TooManyLeases,
}

impl Refusal {
    pub fn number(self) -> u32
        ensures { result ≡ refusal_number self }
    {
        match self {
            Refusal::ReplyTooShort => 1,
            Refusal::NoClient => 2,
            Refusal::TimeBeforeLast => 3,
            Refusal::TimeTooLate => 4,
            Refusal::NotSound => 5,
            Refusal::NotTheOption => 6,
            Refusal::BadFraming(_) => 7,
            Refusal::WrongSuboptions => 8,
            Refusal::TableFull => 9,
            Refusal::NoFreePrefix => 10,
            Refusal::NothingFound => 11,
            Refusal::BadTerms => 12,
            Refusal::OutsideRules => 13,
            Refusal::BufferTooShort => 14,
            Refusal::SheetDiffers => 15,
            Refusal::BadField(_) => 16,
            Refusal::NameTooLong => 17,
            Refusal::NamesLost => 18,
            Refusal::NoSuchPool => 19,
            Refusal::TooManyLeases => 20,
        }
    }

    // 0 of a refusal that has no place.
    pub fn place(self) -> u32
        ensures { result ≡ bad_place self }
    {
        match self {
            Refusal::BadFraming(place) => place,
            Refusal::BadField(place) => place,
            _ => 0,
        }
    }
}

impl From<WriteFault> for Refusal {
    ghost from_gives = { λ fault e. e ≡ unwritten fault };

    fn from(fault: WriteFault) -> Refusal {
        match fault {
            WriteFault::OutsideRules => Refusal::OutsideRules,
            WriteFault::TooLong => Refusal::BufferTooShort,
        }
    }
}

// What an accepted call answers: the bytes written and the count of entries.
#[derive(Clone, Copy, Debug, PartialEq, Eq)]
pub struct Accepted {
    pub bytes: u32,
    pub count: u32,
}

impl From<Result<Accepted, Refusal>> for Answer {
    ghost from_gives = { λ r a. a ≡ answer_of r };

    fn from(r: Result<Accepted, Refusal>) -> Answer {
        match r {
            Ok(a) => answers::accepted(a.bytes, a.count),
            Err(refusal) => answers::refused(refusal.number(), refusal.place()),
        }
    }
}
