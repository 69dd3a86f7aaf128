// Options as a server meets them before it makes a call: option 118 (RFC 3011) read and written, and the check of option 220.
#![tactic(auto)]

ghost use Rattle.std.specs.Prelude.{◌≡◌};
ghost use Rattle.ledger.specs.Answers.{answer_of};
ghost use Rattle.call_option.specs.Options.{selection_in, selection_into, option_check};

use ledger::{Accepted, Refusal};
use option_reply::WriteFault;
use option_scan::{MOST_ENTRIES, MOST_REQUESTS};

// The address of an option 118; 0 of a refusal.
// Stays: the C interface passes it so.
#[repr(C)]
#[derive(Clone, Copy)]
pub struct SelectionAnswer {
    pub number: u32,
    pub address: u32,
}

pub fn read_selection(option: &[u8]) -> SelectionAnswer
    ensures { result ≡ selection_in option.now }
{
    match option::read_selection(option) {
        Some(address) => SelectionAnswer { number: 0, address },
        None => SelectionAnswer {
            number: 6,
            address: 0,
        },
    }
}

pub fn write_selection(address: u32, buffer: &mut [u8]) -> Result<Accepted, Refusal>
    ensures { (answer_of result, buffer.new) ≡ selection_into address buffer.old }
{
    match option_reply::write_selection(address, buffer) {
        Ok(bytes) => Ok(Accepted {
            bytes: bytes as u32,
            count: 0,
        }),
        Err(WriteFault::OutsideRules) => Err(Refusal::OutsideRules),
        Err(WriteFault::TooLong) => Err(Refusal::BufferTooShort),
    }
}

// By the reader of the calls, so that the library has it once; what it finds in the option is not looked at.
pub fn check_option(option: &[u8]) -> Result<Accepted, Refusal>
    ensures { answer_of result ≡ option_check option.now }
{
    let mut asks = [0u8; MOST_REQUESTS];
    let mut h = [0u8; MOST_REQUESTS];
    let mut networks = [0u32; MOST_ENTRIES];
    let mut lengths = [0u8; MOST_ENTRIES];
    call_rows::read_option(option, &mut asks, &mut h, &mut networks, &mut lengths)?;
    Ok(Accepted { bytes: 0, count: 0 })
}
