// The figures sheet in a lent buffer, place for place beside the leases of an image: a row for each slot of the table.
#![tactic(auto)]

ghost use Rattle.std.specs.Prelude.{◌≡◌, true, false, List, map, ◌++◌, ◌+◌, ◌-◌, ◌*◌, ◌≤◌, ◌<◌, length, take, drop, get_or, set, replicate};
ghost use Rattle.lists.specs.Lists.{All, cat_maybes, all?};
ghost use Rattle.lists.specs.Put.{put};
ghost use Rattle.table.specs.declared.Lease.{Lease};
ghost use Rattle.table.specs.Table.{lease_slots, empty?, padded, present};
ghost use Rattle.image.specs.Fields.{number16};
ghost use Rattle.image.specs.Image.{le16, lease_size};
ghost use Rattle.image.specs.Reading.{lease_in};
ghost use Rattle.image_records.specs.Records.{Records, ExpiredIn};
ghost use Rattle.figures.specs.declared.FigureRow.{FigureRow};
ghost use Rattle.figures.specs.Figures.{untold_row, empty_row, of_lease?, matches?, kept_rows, found, row_for, filed};
ghost use Rattle.figures.specs.Inner.{leases_match?, empty_row?};
ghost use Rattle.image_figures.specs.Sheets.{row_size, figures_size, row_bytes, sheet_of, row_in, rows_in, sheet_rows};
ghost use Rattle.image_figures.specs.Inner.{Closing, own?, placed};

use figures::FigureRow;
use image::LEASE;
use option_entry::{Figures, HighWater, InUse, Unusable};
use table::LEASES;

// How many bytes a row and a sheet have.
pub const ROW: usize = 11;

pub const FIGURES: usize = ROW * LEASES;

// Sixteen rows, which fill so many of the processor's registers exactly.
const SIXTEEN: usize = 16 * ROW;

// Where the fields of a row stand; the network is first.
const LENGTH: usize = 4;

const HIGH_WATER: usize = 5;

const IN_USE: usize = 7;

const UNUSABLE: usize = 9;

// ROWS

// The number that two bytes spell, low byte first.
fn read16(s: &[u8], at: usize) -> u16
    requires { at + 2 ≤ length s.now }
    ensures { result ≡ number16 s.now at }
{
    u16::from_le_bytes([s[at], s[at + 1]])
}

fn put16(out: &mut [u8], at: usize, n: u16)
    requires { at + 2 ≤ length out.old }
    ensures { out.new ≡ put out.old at (le16 n) }
{
    octets::put_chunk(out, at, n.to_le_bytes());
}

// The row at the front of the bytes.
fn row_in(s: &[u8]) -> FigureRow
    requires { row_size ≤ length s.now }
    ensures { result ≡ row_in s.now }
{
    FigureRow {
        network: image::read32(s, 0),
        length: s[LENGTH],
        high_water: HighWater(read16(s, HIGH_WATER)),
        in_use: InUse(read16(s, IN_USE)),
        unusable: Unusable(read16(s, UNUSABLE)),
    }
}

// The row that begins here.
pub fn row_at(sheet: &[u8], at: usize) -> FigureRow
    requires { at + row_size ≤ length sheet.now }
    ensures { result ≡ row_in (drop at sheet.now) }
{
    row_in(&sheet[at..])
}

pub fn put_row(sheet: &mut [u8], at: usize, r: FigureRow)
    requires { at + row_size ≤ length sheet.old }
    ensures { sheet.new ≡ put sheet.old at (row_bytes r) }
{
    image_records::put32(sheet, at, r.network);
    sheet[at + LENGTH] = r.length;
    put16(sheet, at + HIGH_WATER, r.high_water.0);
    put16(sheet, at + IN_USE, r.in_use.0);
    put16(sheet, at + UNUSABLE, r.unusable.0);
}

// Whether the row that begins at a place of the sheet is of the lease whose record begins at a place of the image.
fn of_lease_at(sheet: &[u8], at: usize, image: &[u8], place: usize) -> bool
    requires { (at + row_size ≤ length sheet.now) × (place + lease_size ≤ length image.now) }
    ensures { result ≡ of_lease? (lease_in (drop place image.now)) (row_in (drop at sheet.now)) }
{
    if image::read32(sheet, at) != image::network_at(image, place) {
        return false;
    }
    sheet[at + LENGTH] == image::length_at(image, place)
}

// MATCHING

// Whether each of the first n rows is of the lease in its place.
fn leases_match(sheet: &[u8], image: &[u8], from: usize, n: usize) -> bool
    requires { (n ≤ lease_slots) × (length sheet.now ≡ figures_size) × (from + lease_size * n ≤ length image.now) }
    ensures { (xs : List Lease) → Records image.now from xs → n ≡ length xs
        → result ≡ leases_match? xs (rows_in lease_slots sheet.now) }
{
    for i in 0..n {
        if !of_lease_at(sheet, ROW * i, image, from + LEASE * i) {
            return false;
        }
    }
    true
}

// The row of an empty slot, and a sheet of them, which rows are compared with and copied from.
const EMPTY_ROW: [u8; ROW] = *b"\0\0\0\0\0\xff\xff\xff\xff\xff\xff";

static EMPTY_SHEET: [[u8; ROW]; LEASES] = [EMPTY_ROW; LEASES];

// The rows of n empty slots.
fn empty_rows(n: usize) -> &'static [u8]
    requires { n ≤ lease_slots }
    ensures { result.now ≡ sheet_of (replicate n empty_row) }
{
    EMPTY_SHEET[..n].as_flattened()
}

// Sixteen rows of empty slots, each bit turned: bytes that are computed of a constant are compared by the register.
const TURNED: [u8; SIXTEEN] =
    *b"\xff\xff\xff\xff\xff\0\0\0\0\0\0\xff\xff\xff\xff\xff\0\0\0\0\0\0\xff\xff\xff\xff\xff\0\0\0\0\0\0\xff\xff\xff\xff\xff\0\0\0\0\0\0\
    \xff\xff\xff\xff\xff\0\0\0\0\0\0\xff\xff\xff\xff\xff\0\0\0\0\0\0\xff\xff\xff\xff\xff\0\0\0\0\0\0\xff\xff\xff\xff\xff\0\0\0\0\0\0\
    \xff\xff\xff\xff\xff\0\0\0\0\0\0\xff\xff\xff\xff\xff\0\0\0\0\0\0\xff\xff\xff\xff\xff\0\0\0\0\0\0\xff\xff\xff\xff\xff\0\0\0\0\0\0\
    \xff\xff\xff\xff\xff\0\0\0\0\0\0\xff\xff\xff\xff\xff\0\0\0\0\0\0\xff\xff\xff\xff\xff\0\0\0\0\0\0\xff\xff\xff\xff\xff\0\0\0\0\0\0";

// 0 as long as no two bytes differ.
fn differ(before: u8, a: u8, b: u8) -> u8
    ensures { (result ≡ 0 → (before ≡ 0) × (a ≡ b)) × (before ≡ 0 → a ≡ b → result ≡ 0) }
{
    before | (a ^ b)
}

// Whether the thirty-two rows that begin here are those of empty slots. All bytes are looked at, so that they are compared many
// at a time, and those of both halves with the same sixteen rows.
fn thirty_two_empty(sheet: &[u8], at: usize) -> bool
    requires { at + 32 * row_size ≤ length sheet.now }
    ensures { result ≡ all? empty_row? (rows_in 32 (drop at sheet.now)) }
{
    let turned = TURNED;
    let mut other: u8 = 0;
    for k in 0..SIXTEEN {
        let empty = !turned[k];
        other = differ(other, sheet[at + k], empty);
        other = differ(other, sheet[at + SIXTEEN + k], empty);
    }
    other == 0
}

// Whether the rows from place n on are those of empty slots: by thirty-two, the last of which may begin among rows that were looked at.
// Stays: of so many rows `==` reads two sides, and takes a third more instructions in each call that is lent the sheet.
fn rest_empty(sheet: &[u8], n: usize) -> bool
    requires { (n ≤ lease_slots) × (length sheet.now ≡ figures_size) }
    ensures { result ≡ all? empty_row? (drop n (rows_in lease_slots sheet.now)) }
{
    if LEASES < n + 32 {
        return &sheet[ROW * n..] == empty_rows(LEASES - n);
    }
    for k in 0..(LEASES - 1 - n) / 32 {
        if !thirty_two_empty(sheet, ROW * (n + 32 * k)) {
            return false;
        }
    }
    thirty_two_empty(sheet, ROW * (LEASES - 32))
}

// Row 15: whether the sheet has a row for each slot of the table, in its place. An image has records of leases only.
pub fn matches(sheet: &[u8], image: &[u8], from: usize, n: usize) -> bool
    requires { (n ≤ lease_slots) × (from + lease_size * n ≤ length image.now) }
    ensures { (xs : List Lease) → Records image.now from xs → n ≡ length xs → All (λ x. empty? x ≡ false) xs
        → result ≡ matches? (padded xs) (sheet_rows sheet.now) }
{
    if sheet.len() != FIGURES {
        return false;
    }
    if !leases_match(sheet, image, from, n) {
        return false;
    }
    rest_empty(sheet, n)
}

// EMPTY ROWS

// Rows of empty slots from the place `first` up to `last`, one by one.
fn clear_each(sheet: &mut [u8], first: usize, last: usize)
    requires { (first ≤ last) × (row_size * last ≤ length sheet.old) }
    ensures { sheet.new ≡ put sheet.old (row_size * first) (sheet_of (replicate (last - first) empty_row)) }
{
    for i in first..last {
        put_row(sheet, ROW * i, figures::empty_row());
    }
}

// The same, as many at a time as a sheet has; of few the copy costs more than they do.
fn clear_rows(sheet: &mut [u8], first: usize, last: usize)
    requires { (first ≤ last) × (row_size * last ≤ length sheet.old) }
    ensures { sheet.new ≡ put sheet.old (row_size * first) (sheet_of (replicate (last - first) empty_row)) }
{
    if last - first < 16 {
        clear_each(sheet, first, last);
        return;
    }
    for k in 0..(last - first) / LEASES + 1 {
        let at = first + LEASES * k;
        let rows = (last - at).min(LEASES);
        sheet[ROW * at..ROW * (at + rows)].copy_from_slice(empty_rows(rows));
    }
}

// STRIKING

// Of the rows from `first` up to `last` those of leases that are present, each moved down to the one before; the place after
// them. Each row is moved, and the next one over it if its lease has expired: so there is no branch to foresee.
fn close_rows(
    sheet: &mut [u8],
    image: &[u8],
    from: usize,
    n: usize,
    first: usize,
    last: usize,
    time: u32,
) -> usize
    requires { (first ≤ last) × (last ≤ n) × (row_size * n ≤ length sheet.old) × (from + lease_size * n ≤ length image.now) }
    ensures upper_bound { result ≤ last }
    ensures closing { Closing sheet.old image.now from first last n time sheet.new result last }
{
    let mut kept: usize = first;
    for i in first..last {
        let row = octets::chunk_at::<ROW>(sheet, ROW * i);
        octets::put_chunk(sheet, ROW * kept, row);
        kept += usize::from(time < image::expires_at(image, from + LEASE * i));
    }
    kept
}

// Strikes the rows of the leases that have expired, all of which stand from the place `first` up to `last`, while the ends of
// all n are still in the image; how many are left. Rows before `first` are not touched.
pub fn strike(
    sheet: &mut [u8],
    image: &[u8],
    from: usize,
    n: usize,
    first: usize,
    last: usize,
    time: u32,
) -> usize
    requires { (first ≤ last) × (last ≤ n) × (row_size * n ≤ length sheet.old) × (from + lease_size * n ≤ length image.now) }
    ensures upper_bound { result ≤ n }
    ensures value { (rows : List FigureRow) (xs : List Lease) → sheet.old ≡ sheet_of rows → Records image.now from xs → n ≡ length xs → ExpiredIn time first last xs
        → (result ≡ length (present time xs)) × (sheet.new ≡ sheet_of (kept_rows time xs rows ++ (replicate (n - result) empty_row ++ drop n rows))) }
{
    let kept = close_rows(sheet, image, from, n, first, last, time);
    octets::shift::<FIGURES>(sheet, ROW * last, ROW * (n - last), ROW * kept);
    let left = kept + (n - last);
    clear_rows(sheet, left, n);
    left
}

// SPREADING

// Whether the last of the first `left` rows is of the lease whose record begins here.
fn is_own(sheet: &[u8], left: usize, image: &[u8], place: usize) -> bool
    requires { (row_size * left ≤ length sheet.now) × (place + lease_size ≤ length image.now) }
    ensures left_nonzero { result ≡ true → 0 < left }
    ensures value { (rows : List FigureRow) → sheet.now ≡ sheet_of rows → result ≡ own? rows left (lease_in (drop place image.now)) }
{
    if left == 0 {
        return false;
    }
    of_lease_at(sheet, ROW * (left - 1), image, place)
}

// The row at place k of the lease whose record begins here: the last of the first `left` rows if that is its own, and otherwise
// an untold one; how many rows are left.
fn place_row(sheet: &mut [u8], left: usize, k: usize, image: &[u8], place: usize) -> usize
    requires { (left ≤ k) × (row_size * k + row_size ≤ length sheet.old) × (place + lease_size ≤ length image.now) }
    ensures upper_bound { result ≤ left }
    ensures value { (rows : List FigureRow) (x : Lease) → sheet.old ≡ sheet_of rows → x ≡ lease_in (drop place image.now)
        → (result ≡ (placed rows left k x).0) × (sheet.new ≡ sheet_of (placed rows left k x).1) }
{
    if is_own(sheet, left, image, place) {
        let row = octets::chunk_at::<ROW>(sheet, ROW * (left - 1));
        octets::put_chunk(sheet, ROW * k, row);
        return left - 1;
    }
    let new = figures::untold_row(
        image::network_at(image, place),
        image::length_at(image, place),
    );
    put_row(sheet, ROW * k, new);
    left
}

// The rows of an image that has gained leases: the first n rows are those of the leases that were there before, in order, and
// become those of all its leases, from the last down, until the places agree. The premise says that each old row is of one of
// the leases, in their order.
pub fn spread(sheet: &mut [u8], n: usize, image: &[u8], from: usize, leases: usize)
    requires { (n ≤ leases) × (row_size * leases ≤ length sheet.old) × (from + lease_size * leases ≤ length image.now) }
    ensures { (rows : List FigureRow) (xs : List Lease) → sheet.old ≡ sheet_of rows → Records image.now from xs → leases ≡ length xs
        → cat_maybes (map (found (take n rows)) xs) ≡ take n rows
        → sheet.new ≡ sheet_of (map (row_for (take n rows)) xs ++ drop leases rows) }
{
    let mut left: usize = n;
    let mut k: usize = leases;
    // Stays: a `for` is no plainer: it needs a test besides, since the walk ends where the places agree.
    while left < k {
        k = k - 1;
        left = place_row(sheet, left, k, image, from + LEASE * k);
    }
}

// FILLING

// The bytes of an untold row from its length on, the length left 0, as two numbers: the last byte of the first is the first of the second.
const UNTOLD_FROM_LENGTH: u32 = 4294967040;

const UNTOLD_END: u32 = 4294967295;

// The row of a lease of which nothing is told, in three words.
// Stays: by `put_row`, tried, SLOWER: a fill of 1,024 rows took 2.1 to 2.3 microseconds, and takes 1.8 so.
fn put_untold(sheet: &mut [u8], at: usize, network: u32, len: u8)
    requires { at + row_size ≤ length sheet.old }
    ensures { (x : Lease) → x.network ≡ network → x.length ≡ len → sheet.new ≡ put sheet.old at (row_bytes (untold_row x)) }
{
    image_records::put32(sheet, at, network);
    image_records::put32(sheet, at + LENGTH, UNTOLD_FROM_LENGTH + u32::from(len));
    image_records::put32(sheet, at + IN_USE, UNTOLD_END);
}

// The rows of n leases, of which nothing is told.
fn fill_leases(sheet: &mut [u8], image: &[u8], from: usize, n: usize)
    requires { (row_size * n ≤ length sheet.old) × (from + lease_size * n ≤ length image.now) }
    ensures { (xs : List Lease) → Records image.now from xs → n ≡ length xs
        → sheet.new ≡ put sheet.old 0 (sheet_of (map untold_row xs)) }
{
    for i in 0..n {
        let place = from + LEASE * i;
        let network = image::network_at(image, place);
        let len = image::length_at(image, place);
        put_untold(sheet, ROW * i, network, len);
    }
}

// The rows of a fresh or a loaded image, whatever stood in the sheet.
pub fn fill(sheet: &mut [u8], image: &[u8], from: usize, n: usize)
    requires { (n ≤ lease_slots) × (length sheet.old ≡ figures_size) × (from + lease_size * n ≤ length image.now) }
    ensures { (xs : List Lease) → Records image.now from xs → n ≡ length xs → sheet.new ≡ sheet_of (map untold_row (padded xs)) }
{
    fill_leases(sheet, image, from, n);
    clear_rows(sheet, n, LEASES);
}

// FILING

// The figures of an entry into the row at a place.
pub fn file(sheet: &mut [u8], place: usize, f: Figures)
    requires { row_size * place + row_size ≤ length sheet.old }
    ensures { (rows : List FigureRow) → sheet.old ≡ sheet_of rows → sheet.new ≡ sheet_of (set rows place (filed f (get_or rows place empty_row))) }
{
    let r = row_at(sheet, ROW * place);
    put_row(sheet, ROW * place, figures::filed_row(f, r));
}
