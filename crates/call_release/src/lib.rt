// Return as a call on an open book, in place; `return` is a keyword.
#![tactic(auto)]

ghost use Rattle.std.specs.Prelude.{◌≡◌, List, [], ℕ, ◌+◌, ◌*◌, ◌≤◌, length, IfSome};
ghost use Rattle.option.specs.Values.{Entry};
ghost use Rattle.table.specs.declared.Lease.{Lease};
ghost use Rattle.image.specs.Image.{head_size, lease_size};
ghost use Rattle.ledger.specs.Answers.{answer_of};
ghost use Rattle.ledger.specs.Ledger.{call, outcome};
ghost use Rattle.image_records.specs.Records.{Records, Ascending, ExpiredIn};
ghost use Rattle.call_entries.specs.EntryLeases.{Hold};
ghost use Rattle.call_entries.specs.EntryCalls.{Sized};
ghost use Rattle.call_spec.specs.ImageCalls.{lent, release_image};
ghost use Rattle.call_spec.specs.Books.{book_of, release_book};
ghost use Rattle.image_figures.specs.Sheets.{row_size};
ghost use Rattle.call_release.specs.InnerReleasing.{Releasing};
ghost use Rattle.call_release.specs.InnerStruck.{StruckBy, Removed};

use call_entries::Expiry;
use counts::Counts;
use image::{HEAD, POOL};
use image_check::ImageSummary;
use ledger::{Accepted, Answer, Refusal};

// How many leases are struck; all of them stand from the place `first` up to `last`.
#[derive(Clone, Copy)]
struct Strikes {
    count: usize,
    first: usize,
    last: usize,
}

// Strikes each lease that an entry names: it expires at 0, so it counts as expired and no later entry finds it. Nothing, where
// they name none.
fn strike_named(
    image: &mut [u8],
    from: usize,
    n: usize,
    time: u32,
    client: u32,
    networks: &[u32],
    lengths: &[u8],
) -> Option<Strikes>
    requires { (from + lease_size * n ≤ length image.old) × (length networks.now ≡ length lengths.now) }
    ensures bounds { IfSome result (λ s. (1 ≤ s.count) × (s.count ≤ length networks.now) × (s.first ≤ s.last) × (s.last ≤ n)) }
    ensures equation { ((xs : List Lease) → Records image.old from xs → n ≡ length xs → Ascending xs → (es : List Entry) → Hold networks.now lengths.now es
        → StruckBy image.old from xs time client es image.new result) }
{
    let struck = Expiry {
        client,
        time,
        expires: 0,
    };
    let mut count: usize = 0;
    let mut first: usize = n;
    let mut last: usize = 0;
    for (k, network) in networks.iter().enumerate() {
        let found = call_entries::set_expiry(image, from, n, struck, *network, lengths[k]);
        if let Some(i) = found {
            count += 1;
            first = first.min(i);
            last = last.max(i + 1);
        }
    }
    if count == 0 {
        return None;
    }
    Some(Strikes { count, first, last })
}

// Removes the leases that are struck and those that have expired, if there are any of these, which can stand anywhere; their rows
// first, while the ends are in the image.
fn remove_struck(
    image: &mut [u8],
    figures: &mut [u8],
    from: usize,
    n: usize,
    expired: usize,
    first: usize,
    last: usize,
    time: u32,
) -> usize
    requires { (head_size ≤ from) × (first ≤ last) × (last ≤ n) × (from + lease_size * n ≤ length image.old) × (row_size * n ≤ length figures.old) }
    ensures { ((xs : List Lease) → Records image.old from xs → n ≡ length xs → (expired ≡ 0 → ExpiredIn time first last xs)
        → Removed image.old figures.old from xs time image.new figures.new result) }
{
    if expired == 0 {
        image_figures::strike(figures, image, from, n, first, last, time);
        return call_rows::remove_expired_between(image, from, n, first, last, time);
    }
    image_figures::strike(figures, image, from, n, 0, n, time);
    call_rows::remove_expired_between(image, from, n, 0, n, time)
}

// Row 11, and what is found, once every row before it has passed. The columns have the networks and lengths of the entries.
fn strike_found(
    image: &mut [u8],
    image_bytes: &mut usize,
    figures: &mut [u8],
    client: u32,
    time: u32,
    summary: ImageSummary,
    networks: &[u32],
    lengths: &[u8],
) -> Result<Accepted, Refusal>
    requires { Sized (lent image.old image_bytes.old figures.old) summary networks.now lengths.now }
    ensures { ((option : List ℕ) → Releasing (lent image.old image_bytes.old figures.old) time (call client option []) summary networks.now lengths.now
        → outcome (answer_of result) (lent image.new image_bytes.new figures.new) []
        ≡ release_image (lent image.old image_bytes.old figures.old) time (call client option [])) }
{
    let from = HEAD + POOL * summary.pools;
    let n = summary.leases;
    let struck = strike_named(image, from, n, time, client, networks, lengths);
    let strikes = struck.ok_or(Refusal::NothingFound)?;
    *image_bytes = remove_struck(
        image,
        figures,
        from,
        n,
        summary.expired,
        strikes.first,
        strikes.last,
        time,
    );
    Ok(Accepted {
        bytes: 0,
        count: strikes.count as u32,
    })
}

pub fn release(
    image: &mut [u8],
    image_bytes: &mut usize,
    figures: &mut [u8],
    counts: &mut Counts,
    client: u32,
    time: u32,
    option: &[u8],
) -> Result<Accepted, Refusal>
    ensures { outcome (answer_of result) (book_of image.new image_bytes.new figures.new counts.new) []
        ≡ release_book (book_of image.old image_bytes.old figures.old counts.old) time (call client option.now []) }
{
    let bytes = *image_bytes;
    let summary = call_rows::admit(image, bytes, figures, true, counts, false, client, time)?;
    let mut networks = [0u32; option_scan::MOST_ENTRIES];
    let mut lengths = [0u8; option_scan::MOST_ENTRIES];
    let n = call_entries::read_entries(option, &mut networks, &mut lengths)?;
    let answer = strike_found(
        image,
        image_bytes,
        figures,
        client,
        time,
        summary,
        &networks[..n],
        &lengths[..n],
    );
    // An accepted return removes leases.
    let moved = true;
    let number = Answer::from(answer).number;
    call_rows::settle(number, moved, image, *image_bytes, summary.pools, counts);
    answer
}
