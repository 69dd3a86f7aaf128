// What take and release have in common: the entries of an option, and the leases that they name, found and changed in place.
#![tactic(auto)]

ghost use Rattle.std.specs.Prelude.{◌≡◌, List, ◌∷◌, ◌+◌, ◌*◌, ◌≤◌, ◌<◌, length as count, IfSome};
ghost use Rattle.table.specs.declared.Lease.{Lease};
ghost use Rattle.image.specs.Image.{lease_size};
ghost use Rattle.option.specs.Values.{most_entries, Entry, SuboptionValue};
ghost use Rattle.option.specs.Reading.{whole, read_suboptions};
ghost use Rattle.option.specs.Contents.{entries};
ghost use Rattle.option.specs.Answers.{figures_of};
ghost use Rattle.image_records.specs.Records.{Records, Ascending};
ghost use Rattle.call_entries.specs.EntryLeases.{named?, FoundAt, ExpirySet};
ghost use Rattle.call_entries.specs.EntryRows.{ReadsEntries};
ghost use Rattle.call_entries.specs.EntryFigures.{first_entries, LeftAt};

use image::{EXPIRES, LEASE, STATE};
use ledger::Refusal;
use option::{EntryCursor, Figures};

// THE ENTRIES

// The networks and lengths of an option's entries, into two columns, and how many these are; or rows 6, 7, 16 and 8.
pub fn read_entries(
    option: &[u8],
    networks: &mut [u32],
    lengths: &mut [u8],
) -> Result<usize, Refusal>
    requires { (most_entries ≤ count networks.old) × (most_entries ≤ count lengths.old) }
    ensures { ReadsEntries option.now result networks.new lengths.new }
{
    let mut asks = [0u8; option_scan::MOST_REQUESTS];
    let mut h = [0u8; option_scan::MOST_REQUESTS];
    let pieces = call_rows::read_option(option, &mut asks, &mut h, networks, lengths)?;
    if pieces.requests != 0 {
        return Err(Refusal::WrongSuboptions);
    }
    if pieces.entries == 0 {
        return Err(Refusal::WrongSuboptions);
    }
    Ok(pieces.entries)
}

// THE FIGURES OF THE ENTRIES, which only a take looks at: read from an option that has passed the rows, entry by entry. The
// suboption after an information begins where its entries end, so a cursor over these is all that goes from one to the next.

// Of an information, its number.
const INFORMATION: u8 = 2;

// Where the suboptions begin, before the first entry.
pub fn first_entries() -> EntryCursor
    ensures { result ≡ first_entries }
{
    EntryCursor { at: 3, end: 3 }
}

// The entries of the first information from a place on.
fn information_from(s: &[u8], at: usize) -> EntryCursor
    ensures { (later : List SuboptionValue) → at ≤ count s.now → read_suboptions s.now at ≡ (later, whole) → 0 < count (entries later)
        → LeftAt s.now result (entries later) × (result.at < result.end) }
{
    let mut place = at;
    while place < s.len() {
        if s.len() < place + 2 {
            return EntryCursor {
                at: place,
                end: place,
            };
        }
        let end = place + 2 + usize::from(s[place + 1]);
        if s[place] == INFORMATION {
            return EntryCursor { at: place + 3, end };
        }
        place = end;
    }
    EntryCursor {
        at: place,
        end: place,
    }
}

// Where the next entry stands: in this information or in a later one.
fn next_entry(s: &[u8], entries: EntryCursor) -> EntryCursor
    ensures { (e : Entry) (es : List Entry) → LeftAt s.now entries (e ∷ es) → LeftAt s.now result (e ∷ es) × (result.at < result.end) }
{
    if entries.at < entries.end {
        return entries;
    }
    information_from(s, entries.end)
}

// The figures of an entry, and where the reading goes on.
#[derive(Clone, Copy)]
pub struct FiguresRead {
    pub figures: Figures,
    pub next: EntryCursor,
}

pub fn read_figures(s: &[u8], entries: EntryCursor) -> FiguresRead
    ensures { (e : Entry) (es : List Entry) → LeftAt s.now entries (e ∷ es) → (result.figures ≡ figures_of e.figures) × LeftAt s.now result.next es }
{
    let here = next_entry(s, entries);
    match here.step(s) {
        Ok(Some((e, next))) => FiguresRead {
            figures: e.figures,
            next,
        },
        _ => FiguresRead {
            figures: Figures::NONE,
            next: here,
        },
    }
}

// THE LEASE THAT AN ENTRY NAMES

// The place of the lease that is present at `time`, is this client's and has this network and length.
pub fn find(
    image: &[u8],
    from: usize,
    n: usize,
    time: u32,
    client: u32,
    network: u32,
    length: u8,
) -> Option<usize>
    requires { from + lease_size * n ≤ count image.now }
    ensures upper_bound { IfSome result (λ i. i < n) }
    ensures found_at { (xs : List Lease) → Records image.now from xs → n ≡ count xs → Ascending xs → FoundAt (named? time client network length) xs result }
{
    let place = image_records::place_after(image, from, n, network).checked_sub(1)?;
    let x = image_records::lease_at(image, from + LEASE * place);
    if x.network == network && x.length == length && x.client == client && time < x.expires {
        return Some(place);
    }
    None
}

// Whose leases change, at what time, and until when they are leased then.
#[derive(Clone, Copy)]
pub struct Expiry {
    pub client: u32,
    pub time: u32,
    pub expires: u32,
}

// That lease, leased until another time, and its place. Of its record only the state and the end are written.
pub fn set_expiry(
    image: &mut [u8],
    from: usize,
    n: usize,
    expiry: Expiry,
    network: u32,
    length: u8,
) -> Option<usize>
    requires { from + lease_size * n ≤ count image.old }
    ensures upper_bound { IfSome result (λ i. i < n) }
    ensures expiry_set { (xs : List Lease) → Records image.old from xs → n ≡ count xs → Ascending xs
        → ExpirySet (named? expiry.time expiry.client network length) expiry.expires image.old from xs image.new result }
{
    let i = find(image, from, n, expiry.time, expiry.client, network, length)?;
    let at = from + LEASE * i;
    image[at + STATE] = image_records::state_byte(true);
    image_records::put32(image, at + EXPIRES, expiry.expires);
    Some(i)
}
