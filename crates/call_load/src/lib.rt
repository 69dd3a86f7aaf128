// Load as a call: saved bytes that are the image of a sound table, in either form, are checked and put into a lent buffer in the
// second form, the figures sheet is filled, and the whole free blocks are counted.
#![tactic(auto)]

ghost use Rattle.std.specs.Prelude.{◌≡◌, true, [], ◌++◌, ◌+◌, ◌*◌, ◌≤◌, length, drop};
ghost use Rattle.table.specs.declared.LeaseTable.{LeaseTable};
ghost use Rattle.image.specs.Image.{full_image, head_size, pool_size, lease_size, lease_size_in, used_pools, used_leases, image_as, image_of, fits_form};
ghost use Rattle.ledger.specs.Answers.{answer_of};
ghost use Rattle.ledger.specs.Ledger.{outcome};
ghost use Rattle.call_spec.specs.Books.{book_of, load_book};

use counts::Counts;
use image::{FULL_IMAGE, Form, HEAD, POOL};
use image_figures::FIGURES;
use ledger::{Accepted, Refusal};

// The image in the second form at the front of a buffer; how long it is.
fn put_image(form: Form, saved: &[u8], pools: usize, leases: usize, image: &mut [u8]) -> usize
    requires { (head_size + pool_size * pools + lease_size_in form * leases ≡ length saved.now) × (head_size + pool_size * pools + lease_size * leases ≤ full_image) × (full_image ≤ length image.old) }
    ensures { ((t : LeaseTable) → image_as form t ≡ saved.now → fits_form form t ≡ true → pools ≡ length (used_pools t) → leases ≡ length (used_leases t)
        → (result ≡ length (image_of t)) × (image.new ≡ image_of t ++ drop (length (image_of t)) image.old)) }
{
    match form {
        Form::First => image_forms::widen(saved, pools, leases, image),
        Form::Second => image_records::copy(saved, image),
    }
}

// Zeros follow up to the end of a full image, so that of an older one nothing is left behind. A loaded lease has nothing told.
pub fn load(
    image: &mut [u8],
    image_bytes: &mut usize,
    figures: &mut [u8],
    counts: &mut Counts,
    saved: &[u8],
) -> Result<Accepted, Refusal>
    ensures { outcome (answer_of result) (book_of image.new image_bytes.new figures.new counts.new) []
        ≡ load_book (book_of image.old image_bytes.old figures.old counts.old) saved.now }
{
    let form = image::form_of(saved);
    let summary = image_check::check_in(form, saved, 0).ok_or(Refusal::NotSound)?;
    if image.len() < FULL_IMAGE {
        return Err(Refusal::BufferTooShort);
    }
    if figures.len() != FIGURES {
        return Err(Refusal::BufferTooShort);
    }
    let n = put_image(form, saved, summary.pools, summary.leases, image);
    image_records::clear(image, n, FULL_IMAGE);
    image_figures::fill(figures, image, HEAD + POOL * summary.pools, summary.leases);
    image_counts::recount(image, summary.pools, summary.leases, counts);
    *image_bytes = n;
    Ok(Accepted { bytes: 0, count: 0 })
}
