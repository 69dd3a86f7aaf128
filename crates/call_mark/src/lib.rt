// Mark as a call on an open book, in place.
#![tactic(auto)]

ghost use Rattle.std.specs.Prelude.{◌≡◌, true, not, [], eqb};
ghost use Rattle.ledger.specs.Answers.{answer_of};
ghost use Rattle.ledger.specs.Ledger.{outcome};
ghost use Rattle.call_spec.specs.ImageCalls.{lent, mark_image};
ghost use Rattle.call_spec.specs.Books.{book_of, mark_book};
ghost use Rattle.call_rows.specs.Admission.{Admitted};

use counts::Counts;
use image::{HEAD, LEASE, POOL};
use image_check::ImageSummary;
use ledger::{Accepted, Answer, Refusal};
use prefix::Prefix;

// Mark has no client and no reply: what stands for them at the admission is refused by no row.
const ANY_CLIENT: u32 = 1;

// Row 11, and the lease, once every row before it has passed: d is set or cleared in its record; then the expired leases are
// removed, and their rows. Nothing is written before the call is sure to be accepted.
fn mark_lease(
    image: &mut [u8],
    image_bytes: &mut usize,
    figures: &mut [u8],
    network: u32,
    length: u32,
    deprecated: bool,
    time: u32,
    summary: ImageSummary,
) -> Result<Accepted, Refusal>
    requires { Admitted true (lent image.old image_bytes.old figures.old) time 1 summary }
    ensures { outcome (answer_of result) (lent image.new image_bytes.new figures.new) []
        ≡ mark_image (lent image.old image_bytes.old figures.old) time network length deprecated }
{
    // Every lease is a block, so what is none is no lease's prefix.
    let Ok(p) = Prefix::new(network, call_spec::length_of(length)) else {
        return Err(Refusal::NothingFound);
    };
    let from = HEAD + POOL * summary.pools;
    let n = summary.leases;
    let place = image_records::place_after(image, from, n, p.network);
    if place == 0 {
        return Err(Refusal::NothingFound);
    }
    let at = from + LEASE * (place - 1);
    let mut x = image_records::lease_at(image, at);
    if x.network != p.network || x.length != p.length || x.expires <= time {
        return Err(Refusal::NothingFound);
    }
    x.d = deprecated;
    image_records::put_lease(image, at, x);
    call_rows::strike_expired(figures, image, from, n, summary.expired, time);
    *image_bytes = call_rows::remove_expired(image, from, n, summary.expired, time);
    Ok(Accepted { bytes: 0, count: 0 })
}

// `deprecated`: 0 clears d, and any other number sets it.
// Stays: a `bool` would ask more of callers, as edit mark_only_one shows; the C interface passes the buffers and the numbers so.
pub fn mark(
    image: &mut [u8],
    image_bytes: &mut usize,
    figures: &mut [u8],
    counts: &mut Counts,
    network: u32,
    length: u32,
    deprecated: u32,
    time: u32,
) -> Result<Accepted, Refusal>
    ensures { outcome (answer_of result) (book_of image.new image_bytes.new figures.new counts.new) []
        ≡ mark_book (book_of image.old image_bytes.old figures.old counts.old) time network length (not (eqb deprecated 0)) }
{
    let bytes = *image_bytes;
    let summary = call_rows::admit(image, bytes, figures, true, counts, false, ANY_CLIENT, time)?;
    let answer = mark_lease(
        image,
        image_bytes,
        figures,
        network,
        length,
        deprecated != 0,
        time,
        summary,
    );
    // Of the leases only expired ones go.
    let moved = summary.expired != 0;
    let number = Answer::from(answer).number;
    call_rows::settle(number, moved, image, *image_bytes, summary.pools, counts);
    answer
}
