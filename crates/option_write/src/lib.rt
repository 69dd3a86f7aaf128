// Option 220 (RFC 6656): a whole list of suboptions, written into a buffer; nothing is written before all of it has been measured.
#![tactic(auto)]

ghost use Rattle.std.specs.Prelude.{◌≡◌, true, map, ◌+◌, ◌≤◌, ◌<◌, length, take};
ghost use Rattle.lists.specs.Lists.{all?, concat_map};
ghost use Rattle.lists.specs.Put.{put};
ghost use Rattle.option.specs.Writing.{two_bytes, request_bytes, entry_bytes, entries_bytes, suboption_bytes, suboptions_bytes};
ghost use Rattle.option.specs.Writer.{entry_writable?, write_option};
ghost use Rattle.option_measure.specs.Lists.{
  item_slots,
  entry_slots,
  figures_in,
  entry_of,
  information_in,
  name_in,
  value_of,
  suboptions_of,
};
ghost use Rattle.option_reply.specs.Answers.{into};
ghost use Rattle.option_write.specs.Inner.{suboptions_at, Fitting, FittingList, PutAt};

use option::{EntryFields, Figures, LONGEST_OPTION};
pub use option_measure::{InformationItem, Item, NameItem, RequestItem, SuboptionList};
use option_reply::put_bytes;
pub use option_reply::{WriteFault, write_selection};

// Where the suboptions of an option begin, after Code, Len and the option's flags; and how many bytes they have at most.
const SUBOPTIONS: usize = 3;

const MOST_BYTES: usize = LONGEST_OPTION - SUBOPTIONS;

// The pieces of a list of suboptions, which has been measured.

// The figures of an entry, high byte first.
fn put_figures(buf: &mut [u8], at: usize, f: Figures)
    requires { f.count ≤ 3 }
    ensures { buf.new ≡ put buf.old at (concat_map two_bytes (figures_in f)) }
{
    let figures = [
        f.high_water.0.to_be_bytes(),
        f.in_use.0.to_be_bytes(),
        f.unusable.0.to_be_bytes(),
    ];
    put_bytes(buf, at, &figures.as_flattened()[..2 * f.count]);
}

// An entry with its figures; the place after it.
fn put_full_entry(buf: &mut [u8], at: usize, e: EntryFields) -> usize
    requires { (at ≤ 1000000) × (e.figures.count ≤ 3) }
    ensures { PutAt buf.old buf.new at result (entry_bytes (entry_of e)) }
{
    let n = 2 * e.figures.count;
    option_reply::put_entry(buf, at, e.network, e.length, e.h, e.d, n as u8);
    put_figures(buf, at + 7, e.figures);
    at + 7 + n
}

// Entries; the place after them.
fn put_entries(buf: &mut [u8], at: usize, entries: &[EntryFields]) -> usize
    requires { (at ≤ 100000) × (length entries.now ≤ entry_slots) × (all? entry_writable? (map entry_of entries.now) ≡ true) }
    ensures { PutAt buf.old buf.new at result (entries_bytes (map entry_of entries.now)) }
{
    let mut p = at;
    for e in entries {
        p = put_full_entry(buf, p, *e);
    }
    p
}

fn put_request(buf: &mut [u8], at: usize, r: RequestItem)
    ensures { buf.new ≡ put buf.old at (request_bytes r.h r.i r.length) }
{
    put_bytes(
        buf,
        at,
        &[1, 2, option_reply::flags_byte(r.i, r.h), r.length],
    );
}

// An information; the place after it. Its head is put last, once its Len is known.
fn put_information(buf: &mut [u8], at: usize, f: InformationItem, list: &SuboptionList) -> usize
    requires { (at ≤ 90000) × Fitting (information_in list.now.entries f) }
    ensures { PutAt buf.old buf.new at result (suboption_bytes (information_in list.now.entries f)) }
{
    let end = put_entries(buf, at + 3, &list.entries[f.first..f.first + f.count]);
    option_reply::put_information_head(buf, at, (end - at - 2) as u8, f.c, f.s);
    end
}

// A name; the place after it.
fn put_name(buf: &mut [u8], at: usize, n: NameItem, list: &SuboptionList) -> usize
    requires { (at ≤ 90000) × Fitting (name_in list.now.octets n) }
    ensures { PutAt buf.old buf.new at result (suboption_bytes (name_in list.now.octets n)) }
{
    put_bytes(buf, at, &[3, n.count as u8]);
    put_bytes(buf, at + 2, &list.octets[n.first..n.first + n.count]);
    at + 2 + n.count
}

// An item; the place after it.
fn put_item(buf: &mut [u8], at: usize, item: Item, list: &SuboptionList) -> usize
    requires { (at ≤ 90000) × Fitting (value_of list.now.entries list.now.octets item) }
    ensures { PutAt buf.old buf.new at result (suboption_bytes (value_of list.now.entries list.now.octets item)) }
{
    match item {
        Item::Request(r) => {
            put_request(buf, at, r);
            at + 4
        }
        Item::Information(f) => put_information(buf, at, f, list),
        Item::Name(n) => put_name(buf, at, n, list),
        Item::Unknown => at,
    }
}

// All items, from the place after the option's head on.
fn put_items(buf: &mut [u8], list: &SuboptionList)
    requires { (list.now.count ≤ item_slots) × FittingList (map (value_of list.now.entries list.now.octets) (take list.now.count list.now.items)) }
    ensures { buf.new ≡ put buf.old suboptions_at (suboptions_bytes (map (value_of list.now.entries list.now.octets) (take list.now.count list.now.items))) }
{
    let mut p = SUBOPTIONS;
    for item in &list.items[..list.count] {
        p = put_item(buf, p, *item, list);
    }
}

// Option 220: all of a list of suboptions, at the start of the buffer. Everything is checked before the first byte is written.
pub fn write_option(list: &SuboptionList, buf: &mut [u8]) -> Result<usize, WriteFault>
    ensures { (result, buf.new) ≡ into (write_option (length buf.old) (suboptions_of list.now)) buf.old }
{
    let Some(n) = list.measure_items() else {
        return Err(WriteFault::OutsideRules);
    };
    if MOST_BYTES < n {
        return Err(WriteFault::TooLong);
    }
    let bytes = n + SUBOPTIONS;
    if buf.len() < bytes {
        return Err(WriteFault::TooLong);
    }
    option_reply::put_option_head(buf, (n + 1) as u8);
    put_items(buf, list);
    Ok(bytes)
}
