// What comes with a message beside its bytes, and the answers of calls. What a call leaves of what it is lent is a definition, in `specs/`.
#![tactic(auto)]

ghost use Rattle.std.specs.Prelude.{◌≡◌, ◌<◌, cond, ltb, IfOk};
ghost use Rattle.call_spec.specs.Written.{as_answer};

pub use ledger::answers::{accepted, refused};
use ledger::{Accepted, Refusal};
use option_reply::WriteFault;

// Who sent the message that an ask or a take is for, when it came, and whether it carries an option 118 that the caller says is
// enabled. Where it does not, the bytes lent for that option are not looked at.
#[derive(Clone, Copy)]
pub struct Message {
    pub client: u32,
    pub time: u32,
    pub selected: bool,
}

// The answer of an option that is written, or why it is not.
pub fn written(bytes: Result<usize, WriteFault>) -> Result<Accepted, Refusal>
    requires { IfOk bytes (λ n. n < 4294967296) }
    ensures { result ≡ as_answer bytes }
{
    Ok(Accepted {
        bytes: bytes? as u32,
        count: 0,
    })
}

// A length as the calls take it. No prefix has length 0, so 0 stands for every length that a byte cannot hold.
pub fn length_of(n: u32) -> u8
    ensures { result ≡ cond (ltb 255 n) 0 n }
{
    u8::try_from(n).unwrap_or(0)
}
