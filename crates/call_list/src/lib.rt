// List as a call on an image: a client's leases above a position, at most 35 of them, shown from where they stand.
#![tactic(auto)]

ghost use Rattle.std.specs.Prelude.{◌≡◌, List, [], true, not, cond, ◌&&◌, ◌+◌, ◌*◌, ◌≤◌, length, drop, eqb};
ghost use Rattle.option_scan.specs.Scanned.{asked_position};
ghost use Rattle.lists.specs.Lists.{filter};
ghost use Rattle.table.specs.declared.Lease.{Lease};
ghost use Rattle.image_records.specs.Records.{Records, Ascending};
ghost use Rattle.image.specs.Image.{lease_size};
ghost use Rattle.ledger.specs.Answers.{answer_of};
ghost use Rattle.ledger.specs.Ledger.{call, outcome, least_reply};
ghost use Rattle.call_spec.specs.ImageCalls.{lent, list_image};
ghost use Rattle.call_spec.specs.Books.{book_of, list_book};
ghost use Rattle.call_list.specs.InnerListing.{Listing};
ghost use Rattle.call_list.specs.InnerPage.{shown?, start_of, PageOf};

use counts::Counts;
use image::{HEAD, LEASE, POOL};
use image_check::ImageSummary;
use ledger::{Accepted, Refusal};
use option_scan::Contents;
use table::Lease;

// How many leases the reply shows, and whether more remain.
#[derive(Clone, Copy)]
struct Page {
    count: usize,
    more: bool,
}

// The lease is leased by this client, and present at `time`.
fn is_shown(x: Lease, time: u32, client: u32) -> bool
    ensures { result ≡ shown? time client x }
{
    if x.client != client {
        return false;
    }
    if !x.leased {
        return false;
    }
    time < x.expires
}

// The entries of the leases from `first` on that a list shows, as many as a reply holds. The first one makes the call an
// accepted one, so the reply may be written at once.
fn show_page(
    image: &[u8],
    from: usize,
    first: usize,
    n: usize,
    time: u32,
    client: u32,
    reply: &mut [u8],
) -> Page
    requires { (from + lease_size * n ≤ length image.now) × (first ≤ n) × (least_reply ≤ length reply.old) }
    ensures { ((xs : List Lease) → Records image.now from xs → n ≡ length xs
        → PageOf (filter (shown? time client) (drop first xs)) reply.old reply.new result) }
{
    let mut count: usize = 0;
    let mut i: usize = first;
    while i < n {
        let x = image_records::lease_at(image, from + LEASE * i);
        if is_shown(x, time, client) {
            if count == option_reply::MOST_ENTRIES {
                return Page { count, more: true };
            }
            option_reply::put_lease(reply, 6 + 7 * count, x);
            count = count + 1;
        }
        i = i + 1;
    }
    Page { count, more: false }
}

// The first lease above the position; all leases are meant where there is none.
fn first_above(image: &[u8], from: usize, n: usize, position: Option<u32>) -> usize
    requires { from + lease_size * n ≤ length image.now }
    ensures upper_bound { result ≤ n }
    ensures equation { ((xs : List Lease) → Records image.now from xs → n ≡ length xs → Ascending xs → result ≡ start_of (asked_position position) xs) }
{
    match position {
        Some(network) => image_records::place_after(image, from, n, network),
        None => 0,
    }
}

// Row 8: "at least one request, all with i".
fn for_list(requests: usize, listing: usize) -> bool
    ensures { result ≡ (not (eqb requests 0) && eqb listing requests) }
{
    if requests == 0 {
        return false;
    }
    listing == requests
}

// Row 11, and what is shown, once every row before it has passed.
fn show_listed(
    image: &[u8],
    image_bytes: usize,
    client: u32,
    time: u32,
    option: &[u8],
    reply: &mut [u8],
    summary: ImageSummary,
    pieces: Contents,
) -> Result<Accepted, Refusal>
    requires { Listing (lent image.now image_bytes []) time (call client option.now reply.old) summary pieces }
    ensures { outcome (answer_of result) (lent image.now image_bytes []) reply.new
        ≡ list_image (lent image.now image_bytes []) time (call client option.now reply.old) }
{
    let n = summary.leases;
    if n == 0 {
        return Err(Refusal::NothingFound);
    }
    let from = HEAD + POOL * summary.pools;
    let first = first_above(image, from, n, pieces.position);
    let page = show_page(image, from, first, n, time, client, reply);
    let shown = page.count;
    if shown == 0 {
        return Err(Refusal::NothingFound);
    }
    let bytes = option_reply::put_heads(reply, shown, true, page.more);
    Ok(Accepted {
        bytes: bytes as u32,
        count: shown as u32,
    })
}

// List changes nothing, so the image is only read; it has no figures sheet.
pub fn list(
    image: &[u8],
    image_bytes: usize,
    counts: &Counts,
    client: u32,
    time: u32,
    option: &[u8],
    reply: &mut [u8],
) -> Result<Accepted, Refusal>
    ensures { outcome (answer_of result) (book_of image.now image_bytes [] counts.now) reply.new
        ≡ list_book (book_of image.now image_bytes [] counts.now) time (call client option.now reply.old) }
{
    let summary = call_rows::admit(
        image,
        image_bytes,
        &image[..0],
        false,
        counts,
        reply.len() < call_rows::SHORTEST_REPLY,
        client,
        time,
    )?;
    let mut asks = [0u8; option_scan::MOST_REQUESTS];
    let mut h = [0u8; option_scan::MOST_REQUESTS];
    let mut networks = [0u32; option_scan::MOST_ENTRIES];
    let mut lengths = [0u8; option_scan::MOST_ENTRIES];
    let pieces = call_rows::read_option(option, &mut asks, &mut h, &mut networks, &mut lengths)?;
    if !for_list(pieces.requests, pieces.listing) {
        return Err(Refusal::WrongSuboptions);
    }
    show_listed(
        image,
        image_bytes,
        client,
        time,
        option,
        reply,
        summary,
        pieces,
    )
}
