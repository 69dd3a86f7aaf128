// Sheet as a call on saved bytes, in either form.
#![tactic(auto)]

ghost use Rattle.std.specs.Prelude.{◌≡◌};
ghost use Rattle.ledger.specs.Answers.{answer_of};
ghost use Rattle.call_sheet.specs.SheetImage.{sheet_image};

use ledger::{Accepted, Refusal};
use sheet_text::SheetFault;

pub fn sheet(saved: &[u8], text: &mut [u8]) -> Result<Accepted, Refusal>
    ensures { (answer_of result, text.new) ≡ sheet_image saved.now text.old }
{
    match sheet_text::sheet_of_image(saved, text) {
        Ok(bytes) => Ok(Accepted {
            bytes: bytes as u32,
            count: 0,
        }),
        Err(SheetFault::NotSound) => Err(Refusal::NotSound),
        Err(SheetFault::TooSmall) => Err(Refusal::BufferTooShort),
    }
}
