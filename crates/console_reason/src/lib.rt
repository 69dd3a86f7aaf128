// Why a line is no command: the word that is not what it should be, as a line of text.
#![tactic(auto)]

ghost use Rattle.std.specs.Prelude.{◌+◌, ◌*◌, ◌≤◌, length};
ghost use Rattle.console_reason.specs.InnerFaults.{
  Within,
  word_most,
  kind_most,
  fault_most,
  form_most,
  reason_most,
};

use console_script::{COUNTS, LONGEST, LONGEST_REPLY, Name, OptionCall};
use console_write::ItemWord;
use image_figures::FIGURES;

// The most bytes of a word that are shown.
const SHOWN: usize = 40;

// Room for every reason.
pub const REASON: usize = 1024;

// What a word should be.
#[derive(Clone, Copy)]
enum Kind {
    Number,
    // A number below 256.
    Octet,
    // A length of the reply buffer.
    ReplyLength,
    // 0 or 1.
    Flag,
    // The form of a saved book.
    Form,
    Older,
    Switch,
    Prefix,
    Address,
    Octets,
    // The octets of a figures sheet, and of counts.
    Sheet,
    Counts,
    // Of `write`: a bit behind its key, a length behind `prefix=`, figures behind `figures=`, a word that begins an item, an entry in its place.
    Bit(u8),
    Length,
    Figures,
    Item,
    EntryPlace,
}

// What is wrong with the words of a command.
#[derive(Clone, Copy)]
enum Fault {
    // The line ends before a word of this kind.
    Missing(Kind),
    // The word from a place to before another is not of this kind.
    Wrong(usize, usize, Kind),
    // The word from a place to before another is one too many.
    Surplus(usize, usize),
    // Each word of a `write` is right, and they are more than a list holds.
    TooMany,
}

// KINDS

// A number that is not above a limit.
fn is_at_most(word: &[u8], most: u32) -> bool {
    match console_words::read_number(word) {
        Some(n) => n <= most,
        None => false,
    }
}

fn is_hexadecimal(word: &[u8]) -> bool {
    word.iter().all(|c| console_words::digit(*c).is_some())
}

// Two hexadecimal digits for each octet, or `-` for none.
fn is_octets(word: &[u8]) -> bool {
    check::same(word, b"-") || (word.len() % 2 == 0 && is_hexadecimal(word))
}

// As many octets as this.
fn is_octets_of(word: &[u8], size: usize) -> bool {
    word.len() % 2 == 0 && word.len() / 2 == size && is_hexadecimal(word)
}

// A key and 0 or 1 behind it.
fn is_bit(word: &[u8], key: u8) -> bool {
    match word {
        [k, b'=', value @ ..] => *k == key && console_words::read_flag(value).is_some(),
        _ => false,
    }
}

// `prefix=` and a length behind it.
fn is_length(word: &[u8]) -> bool {
    match word.strip_prefix(b"prefix=") {
        Some(value) => is_at_most(value, 255),
        None => false,
    }
}

// `figures=` and figures behind it.
fn is_figures(word: &[u8]) -> bool {
    match word.strip_prefix(b"figures=") {
        Some(value) => console_write::read_figures(value).is_some(),
        None => false,
    }
}

fn is_of(kind: Kind, word: &[u8]) -> bool {
    match kind {
        Kind::Number => console_words::read_number(word).is_some(),
        Kind::Octet => is_at_most(word, 255),
        Kind::ReplyLength => is_at_most(word, LONGEST_REPLY),
        Kind::Flag => console_words::read_flag(word).is_some(),
        Kind::Form => console_script::read_form(word).is_some(),
        Kind::Older => check::same(word, b"older"),
        Kind::Switch => console_script::read_switch(word).is_some(),
        Kind::Prefix => console_words::read_prefix(word).is_some(),
        Kind::Address => console_words::read_network(word).is_some(),
        Kind::Octets => is_octets(word),
        Kind::Sheet => is_octets_of(word, FIGURES),
        Kind::Counts => is_octets_of(word, COUNTS),
        Kind::Bit(key) => is_bit(word, key),
        Kind::Length => is_length(word),
        Kind::Figures => is_figures(word),
        Kind::Item => console_write::read_item(word).is_some(),
        // A place is no matter of the word alone.
        Kind::EntryPlace => false,
    }
}

// The words of an item of `write`, and of a command.
const REQUEST: [Kind; 3] = [Kind::Bit(b'h'), Kind::Bit(b'i'), Kind::Length];

const INFORMATION: [Kind; 2] = [Kind::Bit(b'c'), Kind::Bit(b's')];

const ENTRY: [Kind; 4] = [
    Kind::Prefix,
    Kind::Bit(b'h'),
    Kind::Bit(b'd'),
    Kind::Figures,
];

const CALL: [Kind; 4] = [Kind::Number, Kind::Number, Kind::Octets, Kind::Octets];

const MARK: [Kind; 3] = [Kind::Number, Kind::Prefix, Kind::Flag];

// Up to 16 prefixes.
const OPEN: [Kind; 19] = [
    Kind::Number,
    Kind::Octet,
    Kind::Number,
    Kind::Prefix,
    Kind::Prefix,
    Kind::Prefix,
    Kind::Prefix,
    Kind::Prefix,
    Kind::Prefix,
    Kind::Prefix,
    Kind::Prefix,
    Kind::Prefix,
    Kind::Prefix,
    Kind::Prefix,
    Kind::Prefix,
    Kind::Prefix,
    Kind::Prefix,
    Kind::Prefix,
    Kind::Prefix,
];

// FAULTS: what follows answers the place behind the words, or the first fault.

// The words from a place on, of which there is one of each kind in this order, the first `needed` of them at least.
fn words_fault(s: &[u8], from: usize, kinds: &[Kind], needed: usize) -> Result<usize, Fault>
    requires { from ≤ length s.now }
    ensures { Within from (length s.now) result }
{
    let mut at = from;
    for (i, kind) in kinds.iter().enumerate() {
        let w = console_words::next_word(s, at);
        let start = w.start;
        let end = w.end;
        if start == end {
            if needed <= i {
                return Ok(end);
            }
            return Err(Fault::Missing(*kind));
        }
        if !is_of(*kind, &s[start..end]) {
            return Err(Fault::Wrong(start, end, *kind));
        }
        at = end;
    }
    Ok(at)
}

// The same of all words from a place on: no further one follows.
fn line_fault(s: &[u8], from: usize, kinds: &[Kind], needed: usize) -> Result<usize, Fault>
    requires { from ≤ length s.now }
    ensures { Within from (length s.now) result }
{
    let at = words_fault(s, from, kinds, needed)?;
    let w = console_words::next_word(s, at);
    if w.start != w.end {
        return Err(Fault::Surplus(w.start, w.end));
    }
    Ok(w.end)
}

// An item of a `write`, which the word from `start` to before `end` begins; an entry may follow the one before it or not.
fn item_fault(
    item: ItemWord,
    follows: bool,
    s: &[u8],
    start: usize,
    end: usize,
) -> Result<usize, Fault>
    requires { (start ≤ end) × (end ≤ length s.now) }
    ensures { Within end (length s.now) result }
{
    match item {
        ItemWord::Request => words_fault(s, end, &REQUEST, 3),
        ItemWord::Information => words_fault(s, end, &INFORMATION, 2),
        ItemWord::Entry => {
            if !follows {
                return Err(Fault::Wrong(start, end, Kind::EntryPlace));
            }
            words_fault(s, end, &ENTRY, 4)
        }
        ItemWord::Name => words_fault(s, end, &[Kind::Octets], 1),
        ItemWord::Unknown => Ok(end),
    }
}

// Whether an entry may follow an item.
fn leads_entry(item: ItemWord) -> bool {
    matches!(item, ItemWord::Information | ItemWord::Entry)
}

// The items of a `write`. Where each word is right, they are too many.
fn items_fault(s: &[u8], from: usize) -> Result<usize, Fault>
    requires { from ≤ length s.now }
    ensures { Within from (length s.now) result }
{
    let mut at = from;
    let mut follows = false;
    loop {
        let w = console_words::next_word(s, at);
        let start = w.start;
        let end = w.end;
        if start == end {
            return Err(Fault::TooMany);
        }
        let Some(item) = console_write::read_item(&s[start..end]) else {
            return Err(Fault::Wrong(start, end, Kind::Item));
        };
        at = item_fault(item, follows, s, start, end)?;
        follows = leads_entry(item);
    }
}

// The words of a `write`: an address alone, or items.
fn write_fault(s: &[u8], from: usize) -> Result<usize, Fault>
    requires { from ≤ length s.now }
    ensures { Within from (length s.now) result }
{
    let w = console_words::next_word(s, from);
    if check::same(&s[w.start..w.end], b"address") {
        return line_fault(s, w.end, &[Kind::Address], 1);
    }
    items_fault(s, from)
}

// The words of a call: behind the option there may be another one.
fn call_fault(call: OptionCall, s: &[u8], from: usize) -> Result<usize, Fault>
    requires { from ≤ length s.now }
    ensures { Within from (length s.now) result }
{
    if console_script::carries(call) {
        return line_fault(s, from, &CALL, 3);
    }
    line_fault(s, from, &CALL[..3], 3)
}

// The words of a command, behind its name.
fn command_fault(name: Name, s: &[u8], from: usize) -> Result<usize, Fault>
    requires { from ≤ length s.now }
    ensures { Within from (length s.now) result }
{
    match name {
        Name::Call(c) => call_fault(c, s, from),
        Name::Mark => line_fault(s, from, &MARK, 3),
        Name::Open => line_fault(s, from, &OPEN, 3),
        Name::Load => line_fault(s, from, &[Kind::Octets], 1),
        Name::Save => line_fault(s, from, &[Kind::Form, Kind::Older], 0),
        Name::Sheet => line_fault(s, from, &[], 0),
        Name::Read => line_fault(s, from, &[Kind::Octets], 1),
        Name::Write => write_fault(s, from),
        Name::Figures => line_fault(s, from, &[Kind::Sheet], 0),
        Name::Counts => line_fault(s, from, &[Kind::Counts], 0),
        Name::Whole => line_fault(s, from, &[Kind::Number], 1),
        Name::Buffer => line_fault(s, from, &[Kind::ReplyLength], 1),
        Name::Selection => line_fault(s, from, &[Kind::Switch], 1),
    }
}

// TEXT

// A byte of a word: itself where it can be printed, and otherwise in hexadecimal.
fn put_byte(out: &mut [u8], at: usize, b: u8) -> usize
    requires { at + 4 ≤ length out.old }
    ensures { result ≤ at + 4 }
{
    if b.is_ascii_graphic() {
        return console_text::text(out, at, &[b]);
    }
    let a = console_text::text(out, at, b"\\x");
    console_text::octets(out, a, &[b])
}

fn put_bytes(out: &mut [u8], at: usize, word: &[u8]) -> usize
    requires { at + 4 * length word.now ≤ length out.old }
    ensures { result ≤ at + 4 * length word.now }
{
    let mut end = at;
    for b in word {
        end = put_byte(out, end, *b);
    }
    end
}

// A word, cut after its first bytes.
fn put_word(out: &mut [u8], at: usize, word: &[u8]) -> usize
    requires { at + word_most ≤ length out.old }
    ensures { result ≤ at + word_most }
{
    if word.len() <= SHOWN {
        return put_bytes(out, at, word);
    }
    let a = put_bytes(out, at, &word[0..SHOWN]);
    console_text::text(out, a, b"..")
}

fn put_bit(out: &mut [u8], at: usize, key: u8) -> usize
    requires { at + kind_most ≤ length out.old }
    ensures { result ≤ at + kind_most }
{
    let a = console_text::text(out, at, &[key]);
    let b = console_text::text(out, a, b"=0 or ");
    let c = console_text::text(out, b, &[key]);
    console_text::text(out, c, b"=1")
}

fn put_octets_of(out: &mut [u8], at: usize, size: u32) -> usize
    requires { at + kind_most ≤ length out.old }
    ensures { result ≤ at + kind_most }
{
    console_text::fill(
        out,
        at,
        b"hexadecimal digits, two for each of % bytes",
        &[size],
    )
}

fn put_kind(out: &mut [u8], at: usize, kind: Kind) -> usize
    requires { at + kind_most ≤ length out.old }
    ensures { result ≤ at + kind_most }
{
    match kind {
        Kind::Number => console_text::text(out, at, b"a number below 4294967296"),
        Kind::Octet => console_text::text(out, at, b"a number below 256"),
        Kind::ReplyLength => console_text::fill(out, at, b"a number up to %", &[LONGEST_REPLY]),
        Kind::Flag => console_text::text(out, at, b"0 or 1"),
        Kind::Form => console_text::text(out, at, b"1 or 2"),
        Kind::Older => console_text::text(out, at, b"older"),
        Kind::Switch => console_text::text(out, at, b"on or off"),
        Kind::Prefix => console_text::text(out, at, b"a prefix A.B.C.D/L"),
        Kind::Address => console_text::text(out, at, b"an address A.B.C.D"),
        Kind::Octets => console_text::text(out, at, b"hexadecimal digits, two for each byte, or -"),
        Kind::Sheet => put_octets_of(out, at, FIGURES as u32),
        Kind::Counts => put_octets_of(out, at, COUNTS as u32),
        Kind::Length => console_text::text(out, at, b"prefix= and a number below 256"),
        Kind::Figures => console_text::text(
            out,
            at,
            b"figures= and up to four numbers below 65536 with commas between, or -",
        ),
        Kind::Item => console_text::text(out, at, b"request, information, entry, name or unknown"),
        Kind::EntryPlace => console_text::text(out, at, b"behind an information or another entry"),
        Kind::Bit(key) => put_bit(out, at, key),
    }
}

// A word in quotes, and what is told of it.
fn put_quoted(out: &mut [u8], at: usize, word: &[u8], told: &[u8]) -> usize
    requires { at + word_most + 2 + length told.now ≤ length out.old }
    ensures { result ≤ at + word_most + 2 + length told.now }
{
    let a = console_text::text(out, at, b"'");
    let b = put_word(out, a, word);
    let c = console_text::text(out, b, b"'");
    console_text::text(out, c, told)
}

fn put_fault(out: &mut [u8], at: usize, s: &[u8], f: Result<usize, Fault>) -> usize
    requires { (at + fault_most ≤ length out.old) × Within 0 (length s.now) f }
    ensures { result ≤ at + fault_most }
{
    match f {
        Ok(_) => console_text::text(out, at, b"this is no command"),
        Err(Fault::Missing(kind)) => {
            let a = console_text::text(out, at, b"a word is missing, ");
            put_kind(out, a, kind)
        }
        Err(Fault::Wrong(start, end, kind)) => {
            let a = put_quoted(out, at, &s[start..end], b" should be ");
            put_kind(out, a, kind)
        }
        Err(Fault::Surplus(start, end)) => put_quoted(out, at, &s[start..end], b" is one too many"),
        Err(Fault::TooMany) => {
            console_text::text(
                out,
                at,
                b"more than 96 suboptions, 64 entries or 256 bytes of names",
            )
        }
    }
}

fn put_call_form(out: &mut [u8], at: usize, call: OptionCall) -> usize
    requires { at + form_most ≤ length out.old }
    ensures { result ≤ at + form_most }
{
    if console_script::carries(call) {
        return console_text::text(out, at, b" STATION NOW OPTION [HEX])\n");
    }
    console_text::text(out, at, b" STATION NOW OPTION)\n")
}

// What follows the name of a command.
fn put_form(out: &mut [u8], at: usize, name: Name) -> usize
    requires { at + form_most ≤ length out.old }
    ensures { result ≤ at + form_most }
{
    match name {
        Name::Call(c) => put_call_form(out, at, c),
        Name::Mark => console_text::text(out, at, b" NOW PREFIX D)\n"),
        Name::Open => console_text::text(out, at, b" TERM DEFAULT START PREFIX.., 16 at most)\n"),
        Name::Load => console_text::text(out, at, b" IMAGE)\n"),
        Name::Save => console_text::text(out, at, b" alone, or FORM [older])\n"),
        Name::Sheet => console_text::text(out, at, b" alone)\n"),
        Name::Read => console_text::text(out, at, b" OPTION)\n"),
        Name::Write => console_text::text(out, at, b" ITEM.. or address A.B.C.D)\n"),
        Name::Figures => console_text::text(out, at, b" alone, or SHEET)\n"),
        Name::Counts => console_text::text(out, at, b" alone, or COUNTS)\n"),
        Name::Whole => console_text::text(out, at, b" LENGTH)\n"),
        Name::Buffer => console_text::text(out, at, b" N)\n"),
        Name::Selection => console_text::text(out, at, b" on|off)\n"),
    }
}

// The reason of a line with a name: its fault, and how its command is written.
fn put_command(out: &mut [u8], at: usize, s: &[u8], name: Name, start: usize, end: usize) -> usize
    requires form_most_in_bounds { at + fault_most + 2 + word_most + form_most ≤ length out.old }
    requires start_le_end { (start ≤ end) × (end ≤ length s.now) }
    ensures { result ≤ at + fault_most + 2 + word_most + form_most }
{
    let f = command_fault(name, s, end);
    let a = put_fault(out, at, s, f);
    let b = console_text::text(out, a, b" (");
    let c = put_word(out, b, &s[start..end]);
    put_form(out, c, name)
}

fn put_reason(out: &mut [u8], at: usize, s: &[u8]) -> usize
    requires { at + fault_most + 2 + word_most + form_most ≤ length out.old }
    ensures { result ≤ at + fault_most + 2 + word_most + form_most }
{
    if LONGEST < s.len() {
        return console_text::fill(
            out,
            at,
            b"more than % bytes are no line\n",
            &[LONGEST as u32],
        );
    }
    let w = console_words::next_word(s, 0);
    match console_script::read_name(&s[w.start..w.end]) {
        Some(name) => put_command(out, at, s, name, w.start, w.end),
        None => put_quoted(out, at, &s[w.start..w.end], b" is no command\n"),
    }
}

// Why the line of this number, which has these bytes, is no command: a line of text from the buffer's start on.
pub fn reason(out: &mut [u8], number: u64, s: &[u8]) -> usize
    requires { reason_most ≤ length out.old }
    ensures { result ≤ length out.old }
{
    let a = console_text::text(out, 0, b"line ");
    let b = console_text::number(out, a, number);
    let c = console_text::text(out, b, b": ");
    put_reason(out, c, s)
}
