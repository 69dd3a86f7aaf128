// The words of `write`, which are those that `read` prints: a list of suboptions or an address, and the option that they make.
#![tactic(auto)]

ghost use Rattle.std.specs.Prelude.{◌≡◌, ◌≤◌, length, IfSome};
ghost use Rattle.option.specs.Selection.{write_selection};
ghost use Rattle.option.specs.Writer.{write_option};
ghost use Rattle.option_measure.specs.Lists.{suboptions_of};
ghost use Rattle.console_script.specs.Commands.{longest_reply};
ghost use Rattle.ledger.specs.Answers.{answer_of};
ghost use Rattle.console_write.specs.Writes.{written_as, Writes};
ghost use Rattle.console_write.specs.Inner.{Within, PieceWithin, Fits};

use console_words::Octets;
use ledger::{Accepted, Refusal};
use option_entry::{EntryFields, Figures, HighWater, InUse, Unusable};
use option_measure::{InformationItem, Item, NameItem, RequestItem, SuboptionList};

// What can be listed: "Up to 96 suboptions, 64 entries and 256 octets of names".
const ITEMS: usize = 96;

const ENTRIES: usize = 64;

const OCTETS: usize = 256;

// A suboption or an entry; the octets of a name stand in the line.
#[derive(Clone, Copy)]
enum Piece {
    Request(RequestItem),
    Information(bool, bool),
    Entry(EntryFields),
    Name(Octets),
    Unknown,
}

// A piece, and the place behind its words.
#[derive(Clone, Copy)]
struct PieceAt {
    piece: Piece,
    end: usize,
}

// The list so far: how many suboptions, entries and octets there are; whether an entry may follow, and then the information that it is of: its place among
// the suboptions, its flags and its first entry.
#[derive(Drop)]
struct Listing {
    count: usize,
    entry_count: usize,
    octet_count: usize,
    open: bool,
    slot: usize,
    c: bool,
    s: bool,
    first: usize,
    items: [Item; ITEMS],
    entries: [EntryFields; ENTRIES],
    octets: [u8; OCTETS],
}

// FIGURES

// A number below 65,536.
fn read_figure(s: &[u8]) -> Option<u16> {
    let n = console_words::read_number(s)?;
    u16::try_from(n).ok()
}

// Numbers with commas between them, up to four; `-` where there are none. Of a fourth one only that it is there is kept: such an entry is never written.
pub fn read_figures(s: &[u8]) -> Option<Figures> {
    if check::same(s, b"-") {
        return Some(Figures::NONE);
    }
    let mut numbers = [0u16; 4];
    let mut at: usize = 0;
    for n in 0..4usize {
        let end = octets::find(s, at, b',');
        numbers[n] = read_figure(&s[at..end])?;
        if end == s.len() {
            return Some(Figures {
                count: n + 1,
                high_water: HighWater(numbers[0]),
                in_use: InUse(numbers[1]),
                unusable: Unusable(numbers[2]),
            });
        }
        at = end + 1;
    }
    None
}

// PIECES

// The suboption, or the entry, that a word begins.
#[derive(Clone, Copy)]
pub enum ItemWord {
    Request,
    Information,
    Entry,
    Name,
    Unknown,
}

pub fn read_item(word: &[u8]) -> Option<ItemWord> {
    match word {
        b"request" => Some(ItemWord::Request),
        b"information" => Some(ItemWord::Information),
        b"entry" => Some(ItemWord::Entry),
        b"name" => Some(ItemWord::Name),
        b"unknown" => Some(ItemWord::Unknown),
        _ => None,
    }
}

// h=0 i=1 prefix=24
fn request(s: &[u8], from: usize) -> Option<PieceAt>
    requires { from ≤ length s.now }
    ensures { IfSome result (Within (length s.now)) }
{
    let a = console_words::next_bit(s, from, b"h=");
    let h = a.value? == 1;
    let b = console_words::next_bit(s, a.end, b"i=");
    let i = b.value? == 1;
    let c = console_words::next_field(s, b.end, b"prefix=");
    let number = c.value?;
    let length = u8::try_from(number).ok()?;
    Some(PieceAt {
        piece: Piece::Request(RequestItem { h, i, length }),
        end: c.end,
    })
}

// c=0 s=0
fn information(s: &[u8], from: usize) -> Option<PieceAt>
    requires { from ≤ length s.now }
    ensures { IfSome result (Within (length s.now)) }
{
    let a = console_words::next_bit(s, from, b"c=");
    let c = a.value? == 1;
    let b = console_words::next_bit(s, a.end, b"s=");
    let d = b.value? == 1;
    Some(PieceAt {
        piece: Piece::Information(c, d),
        end: b.end,
    })
}

// PREFIX h=0 d=1 figures=10,7,2
fn entry(s: &[u8], from: usize) -> Option<PieceAt>
    requires { from ≤ length s.now }
    ensures { IfSome result (Within (length s.now)) }
{
    let p = console_words::next_prefix(s, from);
    let prefix = p.value?;
    let a = console_words::next_bit(s, p.end, b"h=");
    let h = a.value? == 1;
    let b = console_words::next_bit(s, a.end, b"d=");
    let d = b.value? == 1;
    let w = console_words::next_word(s, b.end);
    let told = s[w.start..w.end].strip_prefix(b"figures=")?;
    let figures = read_figures(told)?;
    Some(PieceAt {
        piece: Piece::Entry(EntryFields {
            network: prefix.network,
            length: prefix.length,
            h,
            d,
            figures,
        }),
        end: w.end,
    })
}

// The octets of a name, over the word that spells them.
fn name(s: &mut [u8], from: usize) -> Option<PieceAt>
    requires { from ≤ length s.old }
    ensures { IfSome result (Within (length s.old)) }
{
    let w = console_words::next_word(s, from);
    let octets = console_words::read_octets(s, w.start, w.end)?;
    Some(PieceAt {
        piece: Piece::Name(octets),
        end: w.end,
    })
}

// The next suboption or entry.
fn next_piece(s: &mut [u8], from: usize) -> Option<PieceAt>
    requires { from ≤ length s.old }
    ensures { IfSome result (Within (length s.old)) }
{
    let w = console_words::next_word(s, from);
    match read_item(&s[w.start..w.end])? {
        ItemWord::Request => request(s, w.end),
        ItemWord::Information => information(s, w.end),
        ItemWord::Entry => entry(s, w.end),
        ItemWord::Name => name(s, w.end),
        ItemWord::Unknown => Some(PieceAt {
            piece: Piece::Unknown,
            end: w.end,
        }),
    }
}

// THE LIST

impl Listing {
    fn empty() -> Listing
        ensures { Fits result }
    {
        Listing {
            count: 0,
            entry_count: 0,
            octet_count: 0,
            open: false,
            slot: 0,
            c: false,
            s: false,
            first: 0,
            items: [Item::Unknown; ITEMS],
            entries: [EntryFields {
                network: 0,
                length: 0,
                h: false,
                d: false,
                figures: Figures::NONE,
            }; ENTRIES],
            octets: [0; OCTETS],
        }
    }

    // One suboption more, which no entry may follow. In place, here and below: a list has some four thousand bytes, which would be
    // copied for each piece.
    fn add_item(&mut self, item: Item) -> Option<()>
        requires { Fits self.old }
        ensures { Fits self.new }
    {
        let n = self.count;
        if ITEMS <= n {
            return None;
        }
        self.items[n] = item;
        self.count = n + 1;
        self.open = false;
        Some(())
    }

    // An information more, with no entry yet.
    fn add_information(&mut self, c: bool, s: bool) -> Option<()>
        requires { Fits self.old }
        ensures { Fits self.new }
    {
        let n = self.count;
        if ITEMS <= n {
            return None;
        }
        let first = self.entry_count;
        self.items[n] = Item::Information(InformationItem {
            c,
            s,
            first,
            count: 0,
        });
        self.count = n + 1;
        self.open = true;
        self.slot = n;
        self.c = c;
        self.s = s;
        self.first = first;
        Some(())
    }

    // An entry more of the information before it.
    fn add_entry(&mut self, e: EntryFields) -> Option<()>
        requires { Fits self.old }
        ensures { Fits self.new }
    {
        let n = self.entry_count;
        if !self.open || ENTRIES <= n {
            return None;
        }
        let first = self.first;
        self.entries[n] = e;
        self.entry_count = n + 1;
        self.items[self.slot] = Item::Information(InformationItem {
            c: self.c,
            s: self.s,
            first,
            count: n + 1 - first,
        });
        Some(())
    }

    // A name more.
    fn add_name(&mut self, s: &[u8]) -> Option<()>
        requires { Fits self.old }
        ensures { Fits self.new }
    {
        let first = self.octet_count;
        let count = s.len();
        if OCTETS - first < count {
            return None;
        }
        self.add_item(Item::Name(NameItem { first, count }))?;
        self.octets[first..first + count].copy_from_slice(s);
        self.octet_count = first + count;
        Some(())
    }

    // A piece more.
    fn add_piece(&mut self, p: Piece, s: &[u8]) -> Option<()>
        requires { Fits self.old × PieceWithin (length s.now) p }
        ensures { Fits self.new }
    {
        match p {
            Piece::Request(r) => self.add_item(Item::Request(r)),
            Piece::Information(c, d) => self.add_information(c, d),
            Piece::Entry(e) => self.add_entry(e),
            Piece::Name(o) => self.add_name(&s[o.start..o.end]),
            Piece::Unknown => self.add_item(Item::Unknown),
        }
    }
}

// All pieces. No list has more than its suboptions and entries, and then its end.
fn read_list(s: &mut [u8]) -> Option<Listing>
    ensures { IfSome result Fits }
{
    let mut b = Listing::empty();
    let mut at: usize = 0;
    for _ in 0..=ITEMS + ENTRIES {
        if console_words::ends(s, at) {
            return Some(b);
        }
        let p = next_piece(s, at)?;
        b.add_piece(p.piece, s)?;
        at = p.end;
    }
    None
}

// ANSWERS

// The option of a list.
fn write_list(list: &SuboptionList, buffer: &mut [u8]) -> Result<Accepted, Refusal>
    requires { length buffer.old ≤ longest_reply }
    ensures { (answer_of result, buffer.new) ≡ written_as (write_option (length buffer.old) (suboptions_of list.now)) buffer.old }
{
    call_spec::written(option_write::write_option(list, buffer))
}

// Option 118.
fn write_address(address: u32, buffer: &mut [u8]) -> Result<Accepted, Refusal>
    requires { length buffer.old ≤ longest_reply }
    ensures { (answer_of result, buffer.new) ≡ written_as (write_selection (length buffer.old) address) buffer.old }
{
    call_spec::written(option_reply::write_selection(address, buffer))
}

// The address that the next word spells, if it is the last one.
fn read_address(s: &[u8], from: usize) -> Option<u32>
    requires { from ≤ length s.now }
{
    let w = console_words::next_word(s, from);
    if !console_words::ends(s, w.end) {
        return None;
    }
    console_words::read_network(&s[w.start..w.end])
}

fn write_words(s: &mut [u8], buffer: &mut [u8]) -> Option<Result<Accepted, Refusal>>
    requires { length buffer.old ≤ longest_reply }
    ensures { Writes result buffer.old buffer.new }
{
    let b = read_list(s)?;
    let items = b.items;
    let entries = b.entries;
    let octets = b.octets;
    let list = SuboptionList {
        count: b.count,
        items,
        entries,
        octets,
    };
    Some(write_list(&list, buffer))
}

// The option that words make, into a buffer; none of words that are not these.
pub fn write(s: &mut [u8], buffer: &mut [u8]) -> Option<Result<Accepted, Refusal>>
    requires { length buffer.old ≤ longest_reply }
    ensures { Writes result buffer.old buffer.new }
{
    let w = console_words::next_word(s, 0);
    if check::same(&s[w.start..w.end], b"address") {
        let address = read_address(s, w.end)?;
        return Some(write_address(address, buffer));
    }
    write_words(s, buffer)
}
