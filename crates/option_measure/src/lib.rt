// A list of suboptions as the writer is given it, and how long it is when written, if it can be.
#![tactic(auto)]

ghost use Rattle.std.specs.Prelude.{◌≡◌, map, ◌+◌, ◌≤◌, ◌<◌, length, IfSome, MatchOption};
ghost use Rattle.option.specs.Values.{request};
ghost use Rattle.option.specs.Writing.{entry_bytes};
ghost use Rattle.option.specs.Writer.{entry_writable?};
ghost use Rattle.option_measure.specs.Lists.{
  entry_slots,
  entry_of,
  part,
  information_in,
  name_in,
  value_of,
  suboptions_of,
};
ghost use Rattle.option_measure.specs.Measuring.{measure_each, measure_of, measure_one, measure_list};

use option::EntryFields;

// How many suboptions, entries and octets a list has room for. No option that can be written has more.
pub const ITEM_SLOTS: usize = 96;

pub const ENTRY_SLOTS: usize = 64;

pub const OCTET_SLOTS: usize = 256;

// What the writer is given: `count` items, whose entries and octets stand in the arrays beside them.
#[derive(Drop)]
pub struct SuboptionList {
    pub count: usize,
    pub items: [Item; ITEM_SLOTS],
    pub entries: [EntryFields; ENTRY_SLOTS],
    pub octets: [u8; OCTET_SLOTS],
}

#[derive(Clone, Copy, Debug, PartialEq, Eq)]
pub enum Item {
    Request(RequestItem),
    Information(InformationItem),
    Name(NameItem),
    Unknown,
}

#[derive(Clone, Copy, Debug, PartialEq, Eq)]
pub struct RequestItem {
    pub h: bool,
    pub i: bool,
    pub length: u8,
}

// `count` entries, from index `first` of the list's entries on.
#[derive(Clone, Copy, Debug, PartialEq, Eq)]
pub struct InformationItem {
    pub c: bool,
    pub s: bool,
    pub first: usize,
    pub count: usize,
}

// `count` octets, from index `first` of the list's octets on.
#[derive(Clone, Copy, Debug, PartialEq, Eq)]
pub struct NameItem {
    pub first: usize,
    pub count: usize,
}

// `count` elements from index `first` on, if there are so many.
fn part<T>(all: &[T], first: usize, count: usize) -> Option<&[T]>
    ensures { MatchOption result (length all.now < first + count) (λ s. (first + count ≤ length all.now) × (s.now ≡ part first count all.now)) }
{
    all.get(first..)?.get(..count)
}

// How long an entry is when written, if it can be.
fn measure_entry(e: EntryFields) -> Option<usize>
    ensures value { result ≡ measure_each entry_writable? entry_bytes (entry_of e) }
    ensures short { IfSome result (λ n. n ≤ 13) }
{
    let figures = e.figures.count;
    if 3 < figures {
        return None;
    }
    if !prefix::is_block(e.network, e.length) {
        return None;
    }
    Some(7 + 2 * figures)
}

// How long entries are when written, if all of them can be.
fn measure_entries(entries: &[EntryFields]) -> Option<usize>
    requires { length entries.now ≤ entry_slots }
    ensures value { result ≡ measure_of entry_writable? entry_bytes (map entry_of entries.now) }
    ensures short { IfSome result (λ n. n ≤ 832) }
{
    let mut n = 0;
    for e in entries {
        n += measure_entry(*e)?;
    }
    Some(n)
}

fn measure_request(r: RequestItem) -> Option<usize>
    ensures value { result ≡ measure_one (request r.h r.i r.length) }
    ensures short { IfSome result (λ n. n ≤ 900) }
{
    if prefix::Prefix::LONGEST < r.length {
        return None;
    }
    Some(4)
}

impl SuboptionList {
    fn measure_information(&self, f: InformationItem) -> Option<usize>
        ensures value { result ≡ measure_one (information_in self.now.entries f) }
        ensures short { IfSome result (λ n. n ≤ 900) }
    {
        let entries = part(&self.entries, f.first, f.count)?;
        if entries.is_empty() {
            return None;
        }
        let n = measure_entries(entries)?;
        Some(3 + n)
    }

    fn measure_name(&self, n: NameItem) -> Option<usize>
        ensures value { result ≡ measure_one (name_in self.now.octets n) }
        ensures short { IfSome result (λ n. n ≤ 900) }
    {
        let octets = part(&self.octets, n.first, n.count)?;
        if *octets.last()? == 0 {
            return None;
        }
        Some(2 + n.count)
    }

    // The length of what is written of an item, if it can be written.
    fn measure_item(&self, item: Item) -> Option<usize>
        ensures value { result ≡ measure_one (value_of self.now.entries self.now.octets item) }
        ensures short { IfSome result (λ n. n ≤ 900) }
    {
        match item {
            Item::Request(r) => measure_request(r),
            Item::Information(f) => self.measure_information(f),
            Item::Name(n) => self.measure_name(n),
            Item::Unknown => None,
        }
    }

    // The length of what is written of all items, if there are any and all can be written.
    pub fn measure_items(&self) -> Option<usize>
        ensures value { result ≡ measure_list (suboptions_of self.now) }
        ensures short { IfSome result (λ n. n ≤ 86400) }
    {
        let items = part(&self.items, 0, self.count)?;
        if items.is_empty() {
            return None;
        }
        let mut n = 0;
        for item in items {
            n += self.measure_item(*item)?;
        }
        Some(n)
    }
}
