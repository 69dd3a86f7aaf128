// The sheet of an image's lease table, as text into a lent buffer. The leases are read where they stand in the image.
#![tactic(auto)]

ghost use Rattle.std.specs.Prelude.{◌≡◌, ◌+◌, ◌-◌, ◌*◌, ◌≤◌, ◌<◌, length, ltb};
ghost use Rattle.prefix.specs.Prefixes.{longest, end};
ghost use Rattle.table.specs.Table.{lease_slots};
ghost use Rattle.image.specs.declared.Form.TheVariants.{First};
ghost use Rattle.image.specs.Image.{head_size, pool_size, lease_size};
ghost use Rattle.text.specs.Wrote.{Wrote};
ghost use Rattle.sheet_text.specs.Sheet.{prefix_text, shown, name_row, used_row, free_row, free_in, rows, row_text, head_text, sheet_text};
ghost use Rattle.sheet_text.specs.Answers.{into, sheet_of_image};
ghost use Rattle.sheet_text.specs.SheetSizes.{sheet_size};
ghost use Rattle.sheet_text.specs.InnerScan.{
  row_of,
  prefix_size,
  used_size,
  free_size,
  head_text_size,
  Fits,
  lease_shown,
  pools_shown,
  SoundSaved,
  OfSaved,
  SoundImage,
  OfTable,
  clear?,
  scan_of,
  scan_halves,
  scan_all,
  Showed,
  ScanReady,
  scan_text,
  ReadyAll,
};

use image::{FULL_IMAGE, Form, HEAD, LEASE, POOL};
use names::Name;
use prefix::Prefix;
use table::{LEASES, POOLS, SHORTEST_POOL};

// WORDS of the rows.
const LINES: [u8; 12] = *b"sheet lines=";

const FREE_COUNT: [u8; 6] = *b" free=";

const USED: [u8; 5] = *b"used ";

const STATION: [u8; 9] = *b" station ";

const UNTIL: [u8; 7] = *b" until ";

const NAMED: [u8; 6] = *b" name ";

const FREE: [u8; 5] = *b"free ";

const END: [u8; 1] = *b"\n";

// SIZES: how long text gets. No prefix and no number of 32 bits is longer than these. The digits are those of the largest numbers in
// the first row, LEASES and MOST_FREE.
const PREFIX_TEXT: usize = (*b"255.255.255.252/30").len();

const PREFIX_MARKS: usize = (*b".../").len();

const NUMBER_TEXT: usize = (*b"4294967295").len();

const LEASE_DIGITS: usize = 4;

const FREE_DIGITS: usize = 5;

const FIRST_ROW: usize = LINES.len() + LEASE_DIGITS + FREE_COUNT.len() + FREE_DIGITS + END.len();

const USED_WORDS: usize = USED.len() + STATION.len() + UNTIL.len() + END.len();

// A name, with its word.
const NAME_TEXT: usize = NAMED.len() + names::LONGEST;

const USED_ROW: usize = USED_WORDS + PREFIX_TEXT + 2 * NUMBER_TEXT + NAME_TEXT;

const FREE_ROW: usize = FREE.len() + PREFIX_TEXT + END.len();

// A used row, the longest, with each of its seven numbers and its name as long as any.
const ANY_ROW: usize = USED_WORDS + PREFIX_MARKS + 7 * NUMBER_TEXT + NAME_TEXT;

// A pool can be halved so often, and so many free rows stand beside a lease at most.
const HALVINGS: usize = (Prefix::LONGEST - SHORTEST_POOL) as usize;

const MOST_FREE: usize = HALVINGS * LEASES + POOLS;

// How long a sheet can be.
pub const SHEET: usize = FIRST_ROW + USED_ROW * LEASES + FREE_ROW * MOST_FREE;

// A buffer that holds the sheet of every sound table.
pub fn buffer() -> [u8; SHEET]
    ensures { sheet_size ≡ length result }
{
    [0; SHEET]
}

// Why there is no sheet: bytes that are the image of no sound table, or a buffer without room for it.
#[derive(Clone, Copy, Debug, PartialEq, Eq)]
pub enum SheetFault {
    NotSound,
    TooSmall,
}

// ROWS AS TEXT. Each writer puts its bytes from a place on, where the buffer has room for them, and answers the place after them.

fn put_prefix(out: &mut [u8], at: usize, p: Prefix) -> usize
    requires { at + prefix_size p ≤ length out.old }
    ensures wrote { Wrote out.old at (prefix_text p) out.new result }
    ensures value { result ≡ at + prefix_size p }
{
    let n = p.network;
    let a = text::decimal(out, at, n / 16777216);
    let b = text::marked(out, a, b'.', n / 65536 % 256);
    let c = text::marked(out, b, b'.', n / 256 % 256);
    let d = text::marked(out, c, b'.', n % 256);
    text::marked(out, d, b'/', p.length as u32)
}

// What a row shows of a lease.
#[derive(Clone, Copy)]
pub struct Used {
    pub network: u32,
    pub length: u8,
    pub client: u32,
    pub expires: u32,
    pub name: Name,
}

// A row of the sheet.
#[derive(Clone, Copy)]
enum Row {
    Lease(Used),
    Free(Prefix),
}

// An octet of a name as a row shows it: "those outside 0x20 to 0x7E as `?`".
fn shown(octet: u8) -> u8
    ensures { result ≡ shown octet }
{
    if octet < 32 {
        return b'?';
    }
    if 126 < octet {
        return b'?';
    }
    octet
}

// A name at the end of a row, nothing where there is none.
fn put_name(out: &mut [u8], at: usize, name: Name) -> usize
    requires { at + length (name_row name) ≤ length out.old }
    ensures { Wrote out.old at (name_row name) out.new result }
{
    let n = names::length(name) as usize;
    if n == 0 {
        return at;
    }
    let from = text::put(out, at, &NAMED);
    let octets = names::octets(name);
    for (k, octet) in octets[..n].iter().enumerate() {
        out[from + k] = shown(*octet);
    }
    from + n
}

fn put_used(out: &mut [u8], at: usize, x: Used) -> usize
    requires { at + used_size x ≤ length out.old }
    ensures { Wrote out.old at (row_text (used_row x)) out.new result }
{
    let word = text::put(out, at, &USED);
    let p = Prefix {
        network: x.network,
        length: x.length,
    };
    let place = put_prefix(out, word, p);
    let station = text::put(out, place, &STATION);
    let client = text::decimal(out, station, x.client);
    let until = text::put(out, client, &UNTIL);
    let expires = text::decimal(out, until, x.expires);
    let name = put_name(out, expires, x.name);
    text::put(out, name, &END)
}

fn put_free(out: &mut [u8], at: usize, p: Prefix) -> usize
    requires { at + free_size p ≤ length out.old }
    ensures { Wrote out.old at (row_text (free_row p)) out.new result }
{
    let word = text::put(out, at, &FREE);
    let place = put_prefix(out, word, p);
    text::put(out, place, &END)
}

#[inline(always)]
fn put_row(out: &mut [u8], at: usize, row: Row) -> usize
    requires { at + length (row_text (row_of row)) ≤ length out.old }
    ensures { Wrote out.old at (row_text (row_of row)) out.new result }
{
    match row {
        Row::Lease(x) => put_used(out, at, x),
        Row::Free(p) => put_free(out, at, p),
    }
}

// The first row.
fn put_head(out: &mut [u8], leases: u32, free: u32) -> usize
    requires { head_text_size leases free ≤ length out.old }
    ensures { Wrote out.old 0 (head_text leases free) out.new result }
{
    let lines = text::put(out, 0, &LINES);
    let count = text::decimal(out, lines, leases);
    let word = text::put(out, count, &FREE_COUNT);
    let rows = text::decimal(out, word, free);
    text::put(out, rows, &END)
}

// ROWS SHOWN. Each of these writes into a buffer that has room, or into an empty one, and then only tells how long the text is.

#[inline(always)]
fn show_row(out: &mut [u8], at: usize, row: Row) -> usize
    requires { Fits out.old at (row_text (row_of row)) }
    ensures { Wrote out.old at (row_text (row_of row)) out.new result }
{
    if out.len() == 0 {
        let mut line = [0u8; ANY_ROW];
        return at + put_row(&mut line, 0, row);
    }
    put_row(out, at, row)
}

// What the image shows of its i-th lease.
fn lease(image: &[u8], base: usize, i: usize) -> Used
    requires { base + lease_size * i + lease_size ≤ length image.now }
    ensures { result ≡ lease_shown image.now base i }
{
    let x = image_records::lease_at(image, base + LEASE * i);
    let name = x.name;
    Used {
        network: x.network,
        length: x.length,
        client: x.client,
        expires: x.expires,
        name,
    }
}

// None of the n leases is left, or the next one starts at or after the end of the prefix.
fn is_free(image: &[u8], base: usize, n: usize, i: usize, p: Prefix) -> bool
    requires { base + lease_size * n ≤ length image.now }
    ensures { result ≡ clear? n (end p) i (lease_shown image.now base i).network }
{
    if n <= i {
        return true;
    }
    p.end() <= u64::from(image::network_at(image, base + LEASE * i))
}

// Shows a prefix: as a free row, as a used row, or as its two halves. `next` is the next lease.
#[cycle(show_halves_show_prefix)]
fn show_prefix(
    out: &mut [u8],
    image: &[u8],
    base: usize,
    n: usize,
    next: &mut usize,
    at: usize,
    p: Prefix,
) -> usize
    requires { ScanReady image.now base n out.old at p (scan_of (lease_shown image.now base) n p next.old) }
    ensures { Showed out.old at (scan_of (lease_shown image.now base) n p next.old) out.new result next.new }
{
    let i = *next;
    if is_free(image, base, n, i, p) {
        return show_row(out, at, Row::Free(p));
    }
    let x = lease(image, base, i);
    if x.length <= p.length {
        *next = i + 1;
        return show_row(out, at, Row::Lease(x));
    }
    show_halves(out, image, base, n, next, at, p)
}

// Shows the two halves of a prefix, the lower first.
#[cycle(show_halves_show_prefix)]
fn show_halves(
    out: &mut [u8],
    image: &[u8],
    base: usize,
    n: usize,
    next: &mut usize,
    at: usize,
    p: Prefix,
) -> usize
    requires { (p.length < longest) × ScanReady image.now base n out.old at p (scan_halves (lease_shown image.now base) n p next.old) }
    ensures { Showed out.old at (scan_halves (lease_shown image.now base) n p next.old) out.new result next.new }
{
    let low = p.lower();
    let high = p.upper();
    let middle = show_prefix(out, image, base, n, next, at, low);
    show_prefix(out, image, base, n, next, middle, high)
}

// Shows the first k pools.
fn show_pools(out: &mut [u8], image: &[u8], base: usize, n: usize, k: usize, from: usize) -> usize
    requires { ReadyAll image.now base n k out.old from }
    ensures { Wrote out.old from (scan_text (scan_all (lease_shown image.now base) n (pools_shown image.now k) 0)) out.new result }
{
    let pools = &image[HEAD..];
    let mut next: usize = 0;
    let mut at = from;
    for j in 0..k {
        at = show_prefix(
            out,
            image,
            base,
            n,
            &mut next,
            at,
            image_check::pool(pools, j),
        );
    }
    at
}

// THE SHEET of the table that the bytes are the image of; it has k pools and n leases.

// How many rows are free: the whole free blocks. The first row has the number, so it is told before a row is written.
fn free_rows(image: &[u8], k: usize, n: usize) -> u32
    requires { SoundImage image.now k n }
    ensures { OfTable image.now (λ t. result ≡ length (free_in (rows t))) }
{
    counts::total(image_counts::counts_in(image, k, n))
}

// Whether so many bytes are too few. They are enough if they are with every row as long as rows get; else the rows are measured.
fn too_small(room: usize, image: &[u8], k: usize, n: usize, free: u32) -> bool
    requires { SoundImage image.now k n × OfTable image.now (λ t. free ≡ length (free_in (rows t))) }
    ensures { OfTable image.now (λ t. result ≡ ltb room (length (sheet_text t))) }
{
    if FIRST_ROW + USED_ROW * n + FREE_ROW * (free as usize) <= room {
        return false;
    }
    let mut row = [0u8; ANY_ROW];
    let head = put_head(&mut row, n as u32, free);
    let mut none = [0u8; 0];
    room < show_pools(&mut none, image, HEAD + POOL * k, n, k, head)
}

fn write_sheet(image: &[u8], k: usize, n: usize, out: &mut [u8]) -> Result<usize, SheetFault>
    requires { SoundImage image.now k n }
    ensures { OfTable image.now (λ t. (result, out.new) ≡ into (sheet_text t) out.old) }
{
    let free = free_rows(image, k, n);
    if too_small(out.len(), image, k, n, free) {
        return Err(SheetFault::TooSmall);
    }
    let head = put_head(out, n as u32, free);
    let size = show_pools(out, image, HEAD + POOL * k, n, k, head);
    Ok(size)
}

// An image of the first form is shown as it is in the second.
fn write_first(saved: &[u8], k: usize, n: usize, out: &mut [u8]) -> Result<usize, SheetFault>
    requires { SoundSaved First saved.now k n }
    ensures { OfSaved First saved.now (λ t. (result, out.new) ≡ into (sheet_text t) out.old) }
{
    let mut image = [0u8; FULL_IMAGE];
    let size = image_forms::widen(saved, k, n, &mut image);
    write_sheet(&image[..size], k, n, out)
}

// The sheet of an image, in either form, into a buffer; the bytes after it stay, and a refusal leaves all of them.
pub fn sheet_of_image(saved: &[u8], out: &mut [u8]) -> Result<usize, SheetFault>
    ensures { (result, out.new) ≡ sheet_of_image saved.now out.old }
{
    let form = image::form_of(saved);
    let summary = image_check::check_in(form, saved, 0).ok_or(SheetFault::NotSound)?;
    match form {
        Form::First => write_first(saved, summary.pools, summary.leases, out),
        Form::Second => write_sheet(saved, summary.pools, summary.leases, out),
    }
}
