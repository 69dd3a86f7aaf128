// What the calls have in common that work on an image in place: the rows that come before a call's own, and the end of an
// accepted call.
#![tactic(auto)]

ghost use Rattle.std.specs.Prelude.{◌≡◌, cond, ◌&&◌, List, [], ℕ, ◌+◌, ◌*◌, ◌≤◌, length, ltb, eqb};
ghost use Rattle.table.specs.declared.Lease.{Lease};
ghost use Rattle.table.specs.Table.{present};
ghost use Rattle.image.specs.Image.{head_size, lease_size};
ghost use Rattle.image_records.specs.Records.{Records, ExpiredIn};
ghost use Rattle.figures.specs.declared.FigureRow.{FigureRow};
ghost use Rattle.image_figures.specs.Sheets.{row_size, sheet_of};
ghost use Rattle.option_scan.specs.Scanned.{columns, Long};
ghost use Rattle.option.specs.Values.{longest_option};
ghost use Rattle.option.specs.Answers.{place_of};
ghost use Rattle.ledger.specs.Ledger.{least_for};
ghost use Rattle.counts.specs.Counts.{counts_of};
ghost use Rattle.call_spec.specs.ImageCalls.{lent, table_in, carried_if};
ghost use Rattle.call_spec.specs.Books.{book_of, lent_in};
ghost use Rattle.call_rows.specs.Admission.{selection_read, refusal_of, ReadsOption, Admits, Finished, LeftIfAccepted};
ghost use Rattle.call_rows.specs.StruckRows.{struck_if};
ghost use Rattle.call_rows.specs.InnerSummary.{SummaryIn, Measured, SheetPasses};

use counts::Counts;
use image::{HEAD, LAST, LEASE, POOL};
use image_check::ImageSummary;
use ledger::Refusal;
use option::{Fault, OptionFault};
use option_scan::Contents;

// Row 1: no reply buffer is below this size.
pub const SHORTEST_REPLY: usize = option::LONGEST_OPTION;

// The bytes of option 118.
pub const SELECTION: usize = 6;

// ADMISSION

// Row 1: whether so many bytes are too few for the reply of a call that carries an enabled option 118, or does not.
pub fn too_short(room: usize, carried: bool) -> bool
    ensures { (s : List ℕ) → result ≡ ltb room (least_for (carried_if carried s)) }
{
    if carried {
        return room < SHORTEST_REPLY + SELECTION;
    }
    room < SHORTEST_REPLY
}

// Row 6 of option 118, and its address, if the message carries one that is enabled. Where it does not, its bytes are not looked at.
pub fn read_selection(carried: bool, selection: &[u8]) -> Result<Option<u32>, Refusal>
    ensures { result ≡ selection_read (carried_if carried selection.now) }
{
    if !carried {
        return Ok(None);
    }
    match option::read_selection(selection) {
        Some(address) => Ok(Some(address)),
        None => Err(Refusal::NotTheOption),
    }
}

// What the check says of the first `bytes` of the buffer; nothing, if it has fewer or cannot hold a full table.
fn image_summary(image: &[u8], bytes: usize, time: u32) -> Option<ImageSummary>
    ensures { (figures : List ℕ) → SummaryIn (lent image.now bytes figures) time result }
{
    if image.len() < image::FULL_IMAGE {
        return None;
    }
    if image.len() < bytes {
        return None;
    }
    image_check::check(&image[..bytes], time)
}

// What it says of the open book: nothing, where the counts are not the table's.
pub fn summary_in(image: &[u8], bytes: usize, counts: &Counts, time: u32) -> Option<ImageSummary>
    ensures { (figures : List ℕ) → SummaryIn (lent_in (book_of image.now bytes figures counts.now)) time result }
{
    let summary = image_summary(image, bytes, time)?;
    if !image_counts::counted(image, summary.pools, summary.leases, counts) {
        return None;
    }
    Some(summary)
}

// Row 15: whether the figures sheet matches the leases, of a call that has one.
fn sheet_passes(summary: ImageSummary, image: &[u8], figures: &[u8], has_sheet: bool) -> bool
    requires { Measured summary image.now }
    ensures { SheetPasses has_sheet summary image.now figures.now result }
{
    if !has_sheet {
        return true;
    }
    let from = HEAD + POOL * summary.pools;
    image_figures::matches(figures, image, from, summary.leases)
}

// The rows up to the option, in their order. `short` says whether the reply buffer is too short (`too_short`; false of a call
// that has none). A call without the figures sheet has no row 15.
pub fn admit(
    image: &[u8],
    image_bytes: usize,
    figures: &[u8],
    has_sheet: bool,
    counts: &Counts,
    short: bool,
    client: u32,
    time: u32,
) -> Result<ImageSummary, Refusal>
    ensures { Admits has_sheet short (lent_in (book_of image.now image_bytes figures.now counts.now)) time client result }
{
    if short {
        return Err(Refusal::ReplyTooShort);
    }
    let Some(summary) = summary_in(image, image_bytes, counts, time) else {
        return Err(Refusal::NotSound);
    };
    if !sheet_passes(summary, image, figures, has_sheet) {
        return Err(Refusal::SheetDiffers);
    }
    if client == 0 {
        return Err(Refusal::NoClient);
    }
    if time < summary.last {
        return Err(Refusal::TimeBeforeLast);
    }
    if table::LATEST < time {
        return Err(Refusal::TimeTooLate);
    }
    Ok(summary)
}

// Rows 6, 7 and 16 as the reader found them.
fn option_refusal(fault: OptionFault) -> Refusal
    requires { place_of fault ≤ longest_option }
    ensures { result ≡ refusal_of fault }
{
    match fault {
        OptionFault::NotTheOption => Refusal::NotTheOption,
        OptionFault::BadSuboption(bad) => {
            let place = bad.place as u32;
            match bad.fault {
                Fault::Framing => Refusal::BadFraming(place),
                Fault::Field => Refusal::BadField(place),
            }
        }
    }
}

// These rows, or what the calls look at in an option that passes them.
pub fn read_option(
    option: &[u8],
    asks: &mut [u8],
    h: &mut [u8],
    networks: &mut [u32],
    lengths: &mut [u8],
) -> Result<Contents, Refusal>
    requires { Long (columns asks.old h.old networks.old lengths.old) }
    ensures { ReadsOption option.now (columns asks.new h.new networks.new lengths.new) result }
{
    match option_scan::read(option, asks, h, networks, lengths) {
        Ok(contents) => Ok(contents),
        Err(fault) => Err(option_refusal(fault)),
    }
}

// WHAT AN ACCEPTED CALL LEAVES

// Removes the leases that have expired, all of which stand from the place `first` up to `last`, with zeros up to where the n
// leases ended; the time becomes the last time. Answers the length of the image.
pub fn remove_expired_between(
    image: &mut [u8],
    from: usize,
    n: usize,
    first: usize,
    last: usize,
    time: u32,
) -> usize
    requires { (head_size ≤ from) × (first ≤ last) × (last ≤ n) × (from + lease_size * n ≤ length image.old) }
    ensures { (xs : List Lease) → Records image.old from xs → n ≡ length xs → ExpiredIn time first last xs
        → Finished image.old from xs time image.new result }
{
    let kept = image_records::remove_expired(image, from, n, first, last, time);
    image_records::put32(image, LAST, time);
    from + LEASE * kept
}

// The same where they can stand anywhere, if there are any.
pub fn remove_expired(image: &mut [u8], from: usize, n: usize, expired: usize, time: u32) -> usize
    requires { (head_size ≤ from) × (from + lease_size * n ≤ length image.old) }
    ensures { (xs : List Lease) → Records image.old from xs → n ≡ length xs → (expired ≡ 0 → present time xs ≡ xs)
        → Finished image.old from xs time image.new result }
{
    if expired == 0 {
        image_records::put32(image, LAST, time);
        return from + LEASE * n;
    }
    remove_expired_between(image, from, n, 0, n, time)
}

// Strikes the rows of the leases that have expired, if there are any, while their ends are still in the image.
pub fn strike_expired(
    figures: &mut [u8],
    image: &[u8],
    from: usize,
    n: usize,
    expired: usize,
    time: u32,
)
    requires { (row_size * n ≤ length figures.old) × (from + lease_size * n ≤ length image.now) }
    ensures { (rows : List FigureRow) (xs : List Lease) → figures.old ≡ sheet_of rows → Records image.now from xs → n ≡ length xs
        → figures.new ≡ sheet_of (struck_if expired time xs rows) }
{
    if expired == 0 {
        return;
    }
    image_figures::strike(figures, image, from, n, 0, n, time);
}

// The end of a call on an open book. Where it is accepted and leases came or went, the counts are those of the table that is
// left; otherwise they stay.
pub fn settle(
    number: u32,
    moved: bool,
    image: &[u8],
    image_bytes: usize,
    pools: usize,
    counts: &mut Counts,
)
    requires { LeftIfAccepted number (lent image.now image_bytes []) pools }
    ensures { counts.new ≡ cond (eqb number 0 && moved) (counts_of (table_in (lent image.now image_bytes []))) counts.old }
{
    if number != 0 {
        return;
    }
    if !moved {
        return;
    }
    let leases = (image_bytes - (HEAD + POOL * pools)) / LEASE;
    image_counts::recount(image, pools, leases, counts);
}
