// Save as a call: the image of an open book that is sound, in one of the two saved forms, into a lent buffer.
#![tactic(auto)]

ghost use Rattle.std.specs.Prelude.{◌≡◌, ◌&&◌, [], ℕ, ◌+◌, ◌*◌, ◌≤◌, length, take, ltb};
ghost use Rattle.table.specs.declared.LeaseTable.{LeaseTable};
ghost use Rattle.table.specs.Table.{pool_slots, lease_slots, older_slots};
ghost use Rattle.image.specs.declared.Form.TheVariants.{First, Second};
ghost use Rattle.image.specs.Image.{full_image, head_size, pool_size, lease_size, used_pools, used_leases, image_of};
ghost use Rattle.ledger.specs.Answers.{answer_of};
ghost use Rattle.ledger.specs.Ledger.{outcome};
ghost use Rattle.call_spec.specs.Books.{book_of, save_book};
ghost use Rattle.call_save.specs.InnerSaving.{saved_to};

use counts::Counts;
use image::{FIRST_LEASE, Form, HEAD, POOL};
use ledger::{Accepted, Refusal};
use table::OLDER_LEASES;

// "Older desks read only 256 lines": row 20.
fn too_many(leases: usize, older: bool) -> bool
    ensures { result ≡ older && ltb older_slots leases }
{
    older && OLDER_LEASES < leases
}

// The first form has no place for a name: row 18.
fn save_first(
    image: &[u8],
    pools: usize,
    leases: usize,
    buffer: &mut [u8],
) -> Result<Accepted, Refusal>
    requires { (pools ≤ pool_slots) × (leases ≤ lease_slots) × (head_size + pool_size * pools + lease_size * leases ≤ length image.now) }
    ensures { ((t : LeaseTable) (bytes : ℕ) → image_of t ≡ take bytes image.now → pools ≡ length (used_pools t) → leases ≡ length (used_leases t)
        → (answer_of result, buffer.new) ≡ saved_to First t buffer.old) }
{
    let from = HEAD + POOL * pools;
    if image_forms::any_named(image, from, leases) {
        return Err(Refusal::NamesLost);
    }
    if buffer.len() < from + FIRST_LEASE * leases {
        return Err(Refusal::BufferTooShort);
    }
    let n = image_forms::narrow(image, pools, leases, buffer);
    Ok(Accepted {
        bytes: n as u32,
        count: 0,
    })
}

// The image is in the second form as it stands.
fn save_second(image: &[u8], buffer: &mut [u8]) -> Result<Accepted, Refusal>
    requires { length image.now ≤ full_image }
    ensures { ((t : LeaseTable) → image_of t ≡ image.now → (answer_of result, buffer.new) ≡ saved_to Second t buffer.old) }
{
    if buffer.len() < image.len() {
        return Err(Refusal::BufferTooShort);
    }
    let size = image_records::copy(image, buffer);
    Ok(Accepted {
        bytes: size as u32,
        count: 0,
    })
}

// `older`: the image is for an older desk. The bytes after those written stay.
pub fn save(
    image: &[u8],
    image_bytes: usize,
    counts: &Counts,
    form: Form,
    older: bool,
    buffer: &mut [u8],
) -> Result<Accepted, Refusal>
    ensures { outcome (answer_of result) (book_of image.now image_bytes [] counts.now) buffer.new
        ≡ save_book (book_of image.now image_bytes [] counts.now) form older buffer.old }
{
    let summary = call_rows::summary_in(image, image_bytes, counts, 0).ok_or(Refusal::NotSound)?;
    if too_many(summary.leases, older) {
        return Err(Refusal::TooManyLeases);
    }
    match form {
        Form::First => save_first(image, summary.pools, summary.leases, buffer),
        Form::Second => save_second(&image[..image_bytes], buffer),
    }
}
