// What calls answer, what the reader finds, the figures sheet and the counts, as lines of text in a lent buffer.
#![tactic(auto)]

ghost use Rattle.std.specs.Prelude.{◌≡◌, ◌+◌, ◌-◌, ◌*◌, ◌≤◌, ◌<◌, ◌++◌, length, take};
ghost use Rattle.text.specs.Ascii.{ascii};
ghost use Rattle.option.specs.declared.Suboption.TheVariants as Suboption;
ghost use Rattle.table.specs.Table.{pool_slots, shortest_pool, no_lease};
ghost use Rattle.image.specs.Image.{pool_size};
ghost use Rattle.figures.specs.Figures.{of_lease?};
ghost use Rattle.image_figures.specs.Sheets.{figures_size, sheet_rows};
ghost use Rattle.ledger.specs.Ledger.{placed?};
ghost use Rattle.console_lines.specs.Sizes.{
  error_most,
  line_most,
  octets_most,
  read_most,
  row_most,
  rows_most,
  pool_most,
  counts_most,
};
ghost use Rattle.console_lines.specs.InnerSizes.{
  head_most,
  figures_most,
  entry_most,
  request_most,
  address_most,
  prefix_most,
  row_head_most,
  figure_name_most,
  figure_most,
  count_most,
  row_counts_most,
  most,
  Within,
};
ghost use Rattle.text.specs.Wrote.{Wrote};
ghost use Rattle.console_lines.specs.Lines.{
  ok_line,
  refused_line,
  error_line,
  octet_text,
  done_line,
  counted_line,
  replied_line,
  written_line,
};
ghost use Rattle.console_lines.specs.FigureLines.{
  figure_text,
  high_water_text,
  in_use_text,
  unusable_text,
  prefix_text,
  row_text,
  figures_text,
};
ghost use Rattle.console_lines.specs.CountLines.{
  count_text,
  row_counts,
  none_in?,
  pool_text,
  counts_text,
  pools_at,
};

use counts::{Counts, LENGTHS};
use figures::{Figure, FigureRow, UNTOLD};
use image::POOL;
use image_figures::ROW;
use ledger::{Answer, Refusal};
use option::{
    BadSuboption, Cursor, InformationFields, LONGEST_OPTION, NameFields, OptionFault,
    RequestFields, Suboption,
};
use option_entry::{EntryCursor, EntryFields, HighWater, InUse, Unusable};
use table::{LEASES, POOLS, Pool, SHORTEST_POOL};

// The first length that is counted.
const FIRST: usize = SHORTEST_POOL as usize;

// ANSWERS

pub fn ok(out: &mut [u8], at: usize) -> usize
    requires { at + 3 ≤ length out.old }
    ensures { Wrote out.old at ok_line out.new result }
{
    console_text::text(out, at, b"ok\n")
}

// A line that is no command.
pub fn error(out: &mut [u8], at: usize, line: u64) -> usize
    requires { at + error_most ≤ length out.old }
    ensures upper_bound { result ≤ at + error_most }
    ensures wrote { Wrote out.old at (error_line line) out.new result }
{
    let a = console_text::text(out, at, b"error line ");
    let b = console_text::number(out, a, line);
    console_text::text(out, b, b"\n")
}

// Whether a refusal has a place.
fn has_place(number: u32) -> bool
    ensures { result ≡ placed? number }
{
    number == 7 || number == 16
}

// A refusal by its number, with its place if it has one.
pub fn refusal(out: &mut [u8], at: usize, number: u32, place: u32) -> usize
    requires { at + line_most ≤ length out.old }
    ensures upper_bound { result ≤ at + line_most }
    ensures wrote { Wrote out.old at (refused_line number place) out.new result }
{
    if has_place(number) {
        return console_text::fill(out, at, b"refused % place=%\n", &[number, place]);
    }
    console_text::fill(out, at, b"refused %\n", &[number])
}

// The smaller of two numbers.
pub fn least(a: usize, b: usize) -> usize
    ensures { (result ≤ a) × (result ≤ b) × (b < a → result ≡ b) × (a ≤ b → result ≡ a) }
{
    if a < b { a } else { b }
}

// Octets after a word, to the end of the line.
fn octets(out: &mut [u8], at: usize, word: &[u8], s: &[u8]) -> usize
    requires { at + length word.now + 2 * length s.now + 1 ≤ length out.old }
    ensures upper_bound { result ≤ at + length word.now + 2 * length s.now + 1 }
    ensures wrote { Wrote out.old at (word.now ++ (octet_text s.now ++ ascii "\n")) out.new result }
{
    let a = console_text::text(out, at, word);
    let b = console_text::octets(out, a, s);
    console_text::text(out, b, b"\n")
}

// The answer of an open, a load or a mark.
pub fn done(out: &mut [u8], at: usize, a: Answer) -> usize
    requires { at + line_most ≤ length out.old }
    ensures upper_bound { result ≤ at + line_most }
    ensures wrote { Wrote out.old at (done_line a) out.new result }
{
    if a.number != 0 {
        return refusal(out, at, a.number, a.place);
    }
    ok(out, at)
}

// The answer of a return.
pub fn counted(out: &mut [u8], at: usize, a: Answer) -> usize
    requires { at + line_most ≤ length out.old }
    ensures upper_bound { result ≤ at + line_most }
    ensures wrote { Wrote out.old at (counted_line a) out.new result }
{
    if a.number != 0 {
        return refusal(out, at, a.number, a.place);
    }
    console_text::fill(out, at, b"ok count=%\n", &[a.count])
}

// The answer of an ask, a take or a list, with the bytes that it wrote to its reply buffer.
pub fn replied(out: &mut [u8], at: usize, a: Answer, reply: &[u8]) -> usize
    requires { at + octets_most (length reply.now) ≤ length out.old }
    ensures upper_bound { result ≤ at + octets_most (length reply.now) }
    ensures wrote { Wrote out.old at (replied_line a reply.now) out.new result }
{
    if a.number != 0 {
        return refusal(out, at, a.number, a.place);
    }
    let k = least(a.bytes as usize, reply.len());
    let b = console_text::fill(out, at, b"ok bytes=% count=%", &[a.bytes, a.count]);
    octets(out, b, b" ", &reply[0..k])
}

// The answer of a save or a write, with the bytes that it wrote to its buffer.
pub fn written(out: &mut [u8], at: usize, a: Answer, buffer: &[u8]) -> usize
    requires { at + octets_most (length buffer.now) ≤ length out.old }
    ensures upper_bound { result ≤ at + octets_most (length buffer.now) }
    ensures wrote { Wrote out.old at (written_line a buffer.now) out.new result }
{
    if a.number != 0 {
        return refusal(out, at, a.number, a.place);
    }
    let k = least(a.bytes as usize, buffer.len());
    let b = console_text::fill(out, at, b"ok bytes=%", &[a.bytes]);
    octets(out, b, b" ", &buffer[0..k])
}

// OPTIONS

// The figures that an entry has, to the end of its line.
fn figures(out: &mut [u8], at: usize, count: usize, numbers: &[u32]) -> usize
    requires { (length numbers.now ≤ 3) × (at + figures_most ≤ length out.old) }
    ensures { result ≤ at + figures_most }
{
    if count == 0 {
        return console_text::text(out, at, b"-\n");
    }
    if count == 1 {
        return console_text::fill(out, at, b"%\n", numbers);
    }
    if count == 2 {
        return console_text::fill(out, at, b"%,%\n", numbers);
    }
    console_text::fill(out, at, b"%,%,%\n", numbers)
}

// An entry's line up to its figures.
fn entry_head(out: &mut [u8], at: usize, e: EntryFields) -> usize
    requires { at + head_most ≤ length out.old }
    ensures { result ≤ at + head_most }
{
    let n = e.network;
    let numbers = [
        n / 16777216,
        n / 65536 % 256,
        n / 256 % 256,
        n % 256,
        e.length as u32,
        e.h as u32,
        e.d as u32,
    ];
    console_text::fill(out, at, b"entry %.%.%.%/% h=% d=% figures=", &numbers)
}

fn entry(out: &mut [u8], at: usize, e: EntryFields) -> usize
    requires { at + entry_most ≤ length out.old }
    ensures { result ≤ at + entry_most }
{
    let f = e.figures;
    let a = entry_head(out, at, e);
    let numbers = [
        f.high_water.0 as u32,
        f.in_use.0 as u32,
        f.unusable.0 as u32,
    ];
    figures(out, a, f.count, &numbers)
}

// The entries of an information. An entry takes 7 bytes or more, so that 28 for each byte hold the text.
fn entries(out: &mut [u8], at: usize, s: &[u8], first: EntryCursor) -> usize
    requires { at + 28 * (first.end - first.at) ≤ length out.old }
    ensures { result ≤ at + 28 * (first.end - first.at) }
{
    let mut cursor = first;
    let mut end = at;
    while let Ok(Some((e, next))) = cursor.step(s) {
        end = entry(out, end, e);
        cursor = next;
    }
    end
}

fn request(out: &mut [u8], at: usize, r: RequestFields) -> usize
    requires { at + request_most ≤ length out.old }
    ensures { result ≤ at + request_most }
{
    let numbers = [r.h as u32, r.i as u32, r.length as u32];
    console_text::fill(out, at, b"request h=% i=% prefix=%\n", &numbers)
}

fn information(out: &mut [u8], at: usize, s: &[u8], f: InformationFields) -> usize
    requires { at + most (Suboption.Information f) ≤ length out.old }
    ensures { result ≤ at + most (Suboption.Information f) }
{
    let first = f.entries;
    let a = console_text::fill(out, at, b"information c=% s=%\n", &[f.c as u32, f.s as u32]);
    entries(out, a, s, first)
}

fn name(out: &mut [u8], at: usize, s: &[u8], n: NameFields) -> usize
    requires n_in_bounds { at + most (Suboption.Name n) ≤ length out.old }
    requires within { Within s.now (Suboption.Name n) }
    ensures { result ≤ at + most (Suboption.Name n) }
{
    let start = n.start;
    let end = n.end;
    octets(out, at, b"name ", &s[start..end])
}

fn suboption(out: &mut [u8], at: usize, s: &[u8], x: Suboption) -> usize
    requires x_in_bounds { at + most x ≤ length out.old }
    requires within { Within s.now x }
    ensures { result ≤ at + most x }
{
    match x {
        Suboption::Request(r) => request(out, at, r),
        Suboption::Information(f) => information(out, at, s, f),
        Suboption::Name(n) => name(out, at, s, n),
        Suboption::Unknown(_) => console_text::text(out, at, b"unknown\n"),
    }
}

// The suboptions of an option that was checked, and then ok.
fn suboptions(out: &mut [u8], at: usize, s: &[u8]) -> usize
    requires { at + 28 * length s.now + 3 ≤ length out.old }
    ensures { result ≤ at + 28 * length s.now + 3 }
{
    let mut cursor = Cursor::first();
    let mut end = at;
    while let Ok(Some((x, next))) = cursor.step(s) {
        end = suboption(out, end, s, x);
        cursor = next;
    }
    ok(out, end)
}

// What the reader of option 220 finds.
fn option(out: &mut [u8], at: usize, s: &[u8]) -> usize
    requires { at + read_most ≤ length out.old }
    ensures { result ≤ at + read_most }
{
    if LONGEST_OPTION < s.len() {
        return refusal(out, at, Refusal::NotTheOption.number(), 0);
    }
    match option::check_option(s) {
        Ok(()) => suboptions(out, at, s),
        Err(OptionFault::NotTheOption) => refusal(out, at, Refusal::NotTheOption.number(), 0),
        // No place is past the end.
        Err(OptionFault::BadSuboption(BadSuboption { fault, place })) => {
            refusal(out, at, fault.number(), least(place, s.len()) as u32)
        }
    }
}

fn address(out: &mut [u8], at: usize, n: u32) -> usize
    requires { at + address_most ≤ length out.old }
    ensures { result ≤ at + address_most }
{
    let numbers = [n / 16777216, n / 65536 % 256, n / 256 % 256, n % 256];
    console_text::fill(out, at, b"address %.%.%.%\nok\n", &numbers)
}

// What the reader of option 118 finds.
fn selection(out: &mut [u8], at: usize, s: &[u8]) -> usize
    requires { at + address_most ≤ length out.old }
    ensures { result ≤ at + address_most }
{
    match option::read_selection(s) {
        Some(n) => address(out, at, n),
        None => refusal(out, at, Refusal::NotTheOption.number(), 0),
    }
}

// What the reader finds: of option 118 if the first byte is 118, otherwise of option 220.
pub fn read(out: &mut [u8], at: usize, s: &[u8]) -> usize
    requires { at + read_most ≤ length out.old }
    ensures { result ≤ at + read_most }
{
    if 0 < s.len() {
        if s[0] == 118 {
            return selection(out, at, s);
        }
    }
    option(out, at, s)
}

// FIGURES

// A figure behind its name; `-` where nothing was told.
fn figure<F: Figure>(out: &mut [u8], at: usize, name: &[u8], f: F) -> usize
    requires { (length name.now ≤ figure_name_most) × (at + figure_most ≤ length out.old) }
    ensures upper_bound { result ≤ at + figure_most }
    ensures wrote { Wrote out.old at (name.now ++ figure_text (F.number_of f)) out.new result }
{
    let a = console_text::text(out, at, name);
    let n = f.number();
    if n == UNTOLD {
        return console_text::text(out, a, b"-");
    }
    console_text::fill(out, a, b"%", &[n as u32])
}

// Each figure as what it is: another's type is refused behind its word.
fn high_water(out: &mut [u8], at: usize, f: HighWater) -> usize
    requires { at + figure_most ≤ length out.old }
    ensures upper_bound { result ≤ at + figure_most }
    ensures wrote { Wrote out.old at (high_water_text f) out.new result }
{
    figure(out, at, b" high-water=", f)
}

fn in_use(out: &mut [u8], at: usize, f: InUse) -> usize
    requires { at + figure_most ≤ length out.old }
    ensures upper_bound { result ≤ at + figure_most }
    ensures wrote { Wrote out.old at (in_use_text f) out.new result }
{
    figure(out, at, b" in-use=", f)
}

fn unusable(out: &mut [u8], at: usize, f: Unusable) -> usize
    requires { at + figure_most ≤ length out.old }
    ensures upper_bound { result ≤ at + figure_most }
    ensures wrote { Wrote out.old at (unusable_text f) out.new result }
{
    figure(out, at, b" unusable=", f)
}

fn prefix(out: &mut [u8], at: usize, network: u32, len: u8) -> usize
    requires { at + prefix_most ≤ length out.old }
    ensures upper_bound { result ≤ at + prefix_most }
    ensures wrote { Wrote out.old at (prefix_text network len) out.new result }
{
    let numbers = [
        network / 16777216,
        network / 65536 % 256,
        network / 256 % 256,
        network % 256,
        len as u32,
    ];
    console_text::fill(out, at, b"%.%.%.%/%", &numbers)
}

// A row's line up to its figures.
fn row_head(out: &mut [u8], at: usize, r: FigureRow) -> usize
    requires { at + row_head_most ≤ length out.old }
    ensures upper_bound { result ≤ at + row_head_most }
    ensures wrote { Wrote out.old at (ascii "figures " ++ prefix_text r.network r.length) out.new result }
{
    let a = console_text::text(out, at, b"figures ");
    prefix(out, a, r.network, r.length)
}

// Whether a row is that of an empty slot, whatever its figures are.
fn is_empty_slot(r: FigureRow) -> bool
    ensures { result ≡ of_lease? no_lease r }
{
    if r.network != 0 {
        return false;
    }
    r.length == 0
}

// The line of a row; that of an empty slot has none.
fn row(out: &mut [u8], at: usize, r: FigureRow) -> usize
    requires { at + row_most ≤ length out.old }
    ensures upper_bound { result ≤ at + row_most }
    ensures wrote { Wrote out.old at (row_text r) out.new result }
{
    if is_empty_slot(r) {
        return at;
    }
    let a = row_head(out, at, r);
    let b = high_water(out, a, r.high_water);
    let c = in_use(out, b, r.in_use);
    let d = unusable(out, c, r.unusable);
    console_text::text(out, d, b"\n")
}

// The rows of a figures sheet, and then ok.
pub fn figures_sheet(out: &mut [u8], at: usize, sheet: &[u8]) -> usize
    requires { (length sheet.now ≡ figures_size) × (at + rows_most ≤ length out.old) }
    ensures upper_bound { result ≤ at + rows_most }
    ensures wrote { Wrote out.old at (figures_text (sheet_rows sheet.now)) out.new result }
{
    let mut end = at;
    for i in 0..LEASES {
        end = row(out, end, image_figures::row_at(sheet, ROW * i));
    }
    ok(out, end)
}

// COUNTS

// A length and its count; nothing of a count that is 0.
fn count(out: &mut [u8], at: usize, len: u32, n: u16) -> usize
    requires { at + count_most ≤ length out.old }
    ensures upper_bound { result ≤ at + count_most }
    ensures wrote { Wrote out.old at (count_text len n) out.new result }
{
    if n == 0 {
        return at;
    }
    console_text::fill(out, at, b" %=%", &[len, n as u32])
}

// Whether a row has no whole free block.
fn none_in(row: [u16; LENGTHS]) -> bool
    ensures { result ≡ none_in? row }
{
    row == [0; LENGTHS]
}

// The counts of a row, by their lengths.
fn row_counts(out: &mut [u8], at: usize, row: [u16; LENGTHS]) -> usize
    requires { at + row_counts_most ≤ length out.old }
    ensures upper_bound { result ≤ at + row_counts_most }
    ensures wrote { Wrote out.old at (row_counts shortest_pool row) out.new result }
{
    let mut end = at;
    for (j, n) in row.iter().enumerate() {
        end = count(out, end, (j + FIRST) as u32, *n);
    }
    end
}

// The line of a pool; one that has no whole free block has none.
fn pool(out: &mut [u8], at: usize, p: Pool, row: [u16; LENGTHS]) -> usize
    requires { at + pool_most ≤ length out.old }
    ensures upper_bound { result ≤ at + pool_most }
    ensures wrote { Wrote out.old at (pool_text p row) out.new result }
{
    if none_in(row) {
        return at;
    }
    let a = console_text::text(out, at, b"counts ");
    let b = prefix(out, a, p.network, p.length);
    let c = row_counts(out, b, row);
    console_text::text(out, c, b"\n")
}

// The pools whose records these are, each with its row, and then ok.
pub fn counts(out: &mut [u8], at: usize, pools: &[u8], counts: Counts) -> usize
    requires { (pool_size * pool_slots ≤ length pools.now) × (at + counts_most ≤ length out.old) }
    ensures upper_bound { result ≤ at + counts_most }
    ensures wrote { Wrote out.old at (counts_text (pools_at pool_slots pools.now) counts) out.new result }
{
    let mut end = at;
    for (k, row) in counts.iter().enumerate() {
        end = pool(out, end, image::pool_at(pools, POOL * k), *row);
    }
    ok(out, end)
}
