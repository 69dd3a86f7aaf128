// The lines of a script: the command of each, with the numbers that its words spell and the places where its octets and other words stand.
#![tactic(auto)]

ghost use Rattle.std.specs.Prelude.{ℕ, List, ◌≡◌, ◌+◌, ◌-◌, ◌*◌, ◌≤◌, length, drop, IfSome};
ghost use Rattle.counts.specs.Counts.{counted_lengths};
ghost use Rattle.console_script.specs.Commands.{CommandValue, value_in, message_in, Within, OctetsWithin, MessageWithin, counts_size};
ghost use Rattle.console_script.specs.InnerParsing.{last_number, sized_in};
ghost use Rattle.console_script.specs.CountOctets.{numbers_in, counts_in};
ghost use Rattle.console_script.specs.Parsing.{
  same?,
  other_name,
  name_of,
  form_of,
  switch_of,
  carries?,
  message_of,
  both_octets,
  parse_call,
  parse_mark,
  parse_open,
  parse_figures,
  parse_counts,
  alone_or,
  parse_whole,
  parse_buffer,
  parse_selection,
  older_alone?,
  parse_save,
  parse_sheet,
  parse_words,
  parse_line,
  unreturned,
};
ghost use Rattle.console_words.specs.Words.{between};
ghost use Rattle.console_words.specs.Octets.{octets_of, last_octets};

use console_words::{Octets, PrefixWord};
use counts::{Counts, LENGTHS};
use image_figures::FIGURES;
use table::POOLS;

// The longest line, without its newline and a carriage return before that.
pub const LONGEST: usize = 100000;

// The longest reply buffer.
pub const LONGEST_REPLY: u32 = 1024;

// The bytes of all counts, two for each.
pub const COUNTS: usize = 2 * LENGTHS * POOLS;

// The calls that are given an option.
#[derive(Clone, Copy)]
pub enum OptionCall {
    Ask,
    Take,
    List,
    Return,
}

// OPTION [HEX]: where the octets of the option stand in the line, and those of an option 118 if it has one.
#[derive(Clone, Copy)]
pub struct MessageWords {
    pub option: Octets,
    pub selection: Option<Octets>,
}

// STATION NOW OPTION [HEX]
#[derive(Clone, Copy)]
pub struct CallLine {
    pub call: OptionCall,
    pub client: u32,
    pub time: u32,
    pub message: MessageWords,
}

// NOW PREFIX D
#[derive(Clone, Copy)]
pub struct MarkLine {
    pub time: u32,
    pub prefix: PrefixWord,
    pub deprecated: u32,
}

// TERM DEFAULT START, and the place after which all words are prefixes.
#[derive(Clone, Copy)]
pub struct OpenLine {
    pub term: u32,
    pub default_length: u32,
    pub start: u32,
    pub from: usize,
}

// The place after which all words are those of an option that is to be written.
#[derive(Clone, Copy)]
pub struct WriteLine {
    pub from: usize,
}

// FORM: 1 or 2; and whether the image is for an older desk.
#[derive(Clone, Copy)]
pub struct SaveLine {
    pub form: u32,
    pub older: bool,
}

// LENGTH
#[derive(Clone, Copy)]
pub struct WholeLine {
    pub length: u32,
}

// N
#[derive(Clone, Copy)]
pub struct BufferLine {
    pub length: u32,
}

// on or off
#[derive(Clone, Copy)]
pub struct SelectionLine {
    pub on: bool,
}

// A line that has no word, or whose first word begins with `#`, has nothing to do. OPTION, IMAGE, SHEET and COUNTS stand as octets in the line.
#[derive(Clone, Copy)]
pub enum Command {
    Call(CallLine),
    Mark(MarkLine),
    Open(OpenLine),
    Load(Octets),
    Save(SaveLine),
    Sheet,
    Read(Octets),
    Write(WriteLine),
    Figures,
    SetFigures(Octets),
    Counts,
    SetCounts(Octets),
    Whole(WholeLine),
    Buffer(BufferLine),
    Selection(SelectionLine),
    Nothing,
}

// What the first word names.
#[derive(Clone, Copy)]
pub enum Name {
    Call(OptionCall),
    Mark,
    Open,
    Load,
    Save,
    Sheet,
    Read,
    Write,
    Figures,
    Counts,
    Whole,
    Buffer,
    Selection,
}

// NAMES

// Whether a word is this name.
fn is(word: &[u8], name: &[u8]) -> bool
    ensures { result ≡ same? word.now name.now }
{
    check::same(word, name)
}

// The command that a word names where it is none of a call.
// Stays: the names one by one. Tried as a `match` on byte strings, the goals of the arms stayed open.
fn other_name(word: &[u8]) -> Option<Name>
    ensures { result ≡ other_name word.now }
{
    if is(word, b"read") {
        return Some(Name::Read);
    }
    if is(word, b"write") {
        return Some(Name::Write);
    }
    if is(word, b"figures") {
        return Some(Name::Figures);
    }
    if is(word, b"counts") {
        return Some(Name::Counts);
    }
    if is(word, b"whole") {
        return Some(Name::Whole);
    }
    if is(word, b"buffer") {
        return Some(Name::Buffer);
    }
    if is(word, b"selection") {
        return Some(Name::Selection);
    }
    None
}

pub fn read_name(word: &[u8]) -> Option<Name>
    ensures { result ≡ name_of word.now }
{
    if is(word, b"ask") {
        return Some(Name::Call(OptionCall::Ask));
    }
    if is(word, b"take") {
        return Some(Name::Call(OptionCall::Take));
    }
    if is(word, b"list") {
        return Some(Name::Call(OptionCall::List));
    }
    if is(word, b"return") {
        return Some(Name::Call(OptionCall::Return));
    }
    if is(word, b"mark") {
        return Some(Name::Mark);
    }
    if is(word, b"open") {
        return Some(Name::Open);
    }
    if is(word, b"load") {
        return Some(Name::Load);
    }
    if is(word, b"save") {
        return Some(Name::Save);
    }
    if is(word, b"sheet") {
        return Some(Name::Sheet);
    }
    other_name(word)
}

// LINES: what the words after a name spell.

// The calls whose message may come with an option 118.
pub fn carries(call: OptionCall) -> bool
    ensures { result ≡ carries? call }
{
    match call {
        OptionCall::Ask => true,
        OptionCall::Take => true,
        OptionCall::List => false,
        OptionCall::Return => false,
    }
}

// OPTION HEX, the first of which stands from a place to before another. The octets of each are written within its own part of the line.
fn both_octets(s: &mut [u8], begin: usize, end: usize) -> Option<MessageWords>
    requires { (begin ≤ end) × (end ≤ length s.old) }
    ensures message_within { IfSome result (λ m. MessageWithin (length s.old) m) }
    ensures result_after { message_in s.new result ≡ both_octets (octets_of (between begin end s.old)) (last_octets (drop end s.old)) }
{
    let second = console_words::last_octets(&mut s[end..], 0)?;
    let option = console_words::read_octets(&mut s[..end], begin, end)?;
    Some(MessageWords {
        option,
        selection: Some(Octets {
            start: end + second.start,
            end: end + second.end,
        }),
    })
}

// OPTION [HEX]
fn message_words(call: OptionCall, s: &mut [u8], from: usize) -> Option<MessageWords>
    requires { from ≤ length s.old }
    ensures message_within { IfSome result (λ m. MessageWithin (length s.old) m) }
    ensures result_after { message_in s.new result ≡ message_of call (drop from s.old) }
{
    let w = console_words::next_word(s, from);
    if console_words::ends(s, w.end) {
        let option = console_words::read_octets(s, w.start, w.end)?;
        return Some(MessageWords {
            option,
            selection: None,
        });
    }
    if !carries(call) {
        return None;
    }
    both_octets(s, w.start, w.end)
}

// STATION NOW OPTION [HEX]
fn call_line(call: OptionCall, s: &mut [u8], from: usize) -> Option<Command>
    requires { from ≤ length s.old }
    ensures within { IfSome result (λ c. Within (length s.old) c) }
    ensures result_after { value_in s.new result ≡ parse_call call (drop from s.old) }
{
    let a = console_words::next_number(s, from);
    let client = a.value?;
    let b = console_words::next_number(s, a.end);
    let time = b.value?;
    let message = message_words(call, s, b.end)?;
    Some(Command::Call(CallLine {
        call,
        client,
        time,
        message,
    }))
}

// NOW PREFIX D
fn mark_line(s: &[u8], from: usize) -> Option<Command>
    requires { from ≤ length s.now }
    ensures within { IfSome result (λ c. Within (length s.now) c) }
    ensures result_value { value_in s.now result ≡ parse_mark (drop from s.now) }
{
    let a = console_words::next_number(s, from);
    let time = a.value?;
    let b = console_words::next_prefix(s, a.end);
    let prefix = b.value?;
    let d = console_words::next_flag(s, b.end);
    let deprecated = d.value?;
    if !console_words::ends(s, d.end) {
        return None;
    }
    Some(Command::Mark(MarkLine {
        time,
        prefix,
        deprecated,
    }))
}

// TERM DEFAULT START PREFIX..
fn open_line(s: &[u8], from: usize) -> Option<Command>
    requires { from ≤ length s.now }
    ensures within { IfSome result (λ c. Within (length s.now) c) }
    ensures result_value { value_in s.now result ≡ parse_open (drop from s.now) }
{
    let a = console_words::next_number(s, from);
    let term = a.value?;
    let b = console_words::next_number(s, a.end);
    let default_length = b.value?;
    if 255 < default_length {
        return None;
    }
    let c = console_words::next_number(s, b.end);
    let start = c.value?;
    Some(Command::Open(OpenLine {
        term,
        default_length,
        start,
        from: c.end,
    }))
}

// The word 1 or the word 2.
pub fn read_form(word: &[u8]) -> Option<u32>
    ensures { result ≡ form_of word.now }
{
    if is(word, b"1") {
        return Some(1);
    }
    if is(word, b"2") {
        return Some(2);
    }
    None
}

// The word older, and no further one.
fn older_alone(s: &[u8], from: usize) -> bool
    requires { from ≤ length s.now }
    ensures { result ≡ older_alone? (drop from s.now) }
{
    let w = console_words::next_word(s, from);
    if !is(&s[w.start..w.end], b"older") {
        return false;
    }
    console_words::ends(s, w.end)
}

// Nothing more, which is the second form, FORM, or FORM older.
fn save_line(s: &[u8], from: usize) -> Option<Command>
    requires { from ≤ length s.now }
    ensures within { IfSome result (λ c. Within (length s.now) c) }
    ensures result_value { value_in s.now result ≡ parse_save (drop from s.now) }
{
    if console_words::ends(s, from) {
        return Some(Command::Save(SaveLine {
            form: 2,
            older: false,
        }));
    }
    let w = console_words::next_word(s, from);
    let form = read_form(&s[w.start..w.end])?;
    if console_words::ends(s, w.end) {
        return Some(Command::Save(SaveLine { form, older: false }));
    }
    if !older_alone(s, w.end) {
        return None;
    }
    Some(Command::Save(SaveLine { form, older: true }))
}

// Nothing more, or octets as the last word: exactly so many.
fn alone_or(s: &mut [u8], from: usize, size: usize) -> Option<Option<Octets>>
    requires { from ≤ length s.old }
    ensures within { IfSome result (λ o. IfSome o (λ octets. OctetsWithin (length s.old) octets × (octets.end - octets.start ≡ size))) }
    ensures result_after { (alone : CommandValue) (f : List ℕ → CommandValue) → sized_in s.new result alone f ≡ alone_or alone size f (drop from s.old) }
{
    if console_words::ends(s, from) {
        return Some(None);
    }
    let octets = console_words::last_octets(s, from)?;
    if octets.end - octets.start != size {
        return None;
    }
    Some(Some(octets))
}

// Nothing more, or SHEET: exactly as many bytes as a figures sheet has.
fn figures_line(s: &mut [u8], from: usize) -> Option<Command>
    requires { from ≤ length s.old }
    ensures within { IfSome result (λ c. Within (length s.old) c) }
    ensures result_after { value_in s.new result ≡ parse_figures (drop from s.old) }
{
    match alone_or(s, from, FIGURES)? {
        None => Some(Command::Figures),
        Some(octets) => Some(Command::SetFigures(octets)),
    }
}

// Nothing more, or COUNTS: exactly as many bytes as all counts have.
fn counts_line(s: &mut [u8], from: usize) -> Option<Command>
    requires { from ≤ length s.old }
    ensures within { IfSome result (λ c. Within (length s.old) c) }
    ensures result_after { value_in s.new result ≡ parse_counts (drop from s.old) }
{
    match alone_or(s, from, COUNTS)? {
        None => Some(Command::Counts),
        Some(octets) => Some(Command::SetCounts(octets)),
    }
}

// The next word as a number, if it is the last one.
fn last_number(s: &[u8], from: usize) -> Option<u32>
    requires { from ≤ length s.now }
    ensures { result ≡ last_number (drop from s.now) }
{
    let a = console_words::next_number(s, from);
    if !console_words::ends(s, a.end) {
        return None;
    }
    a.value
}

// LENGTH, any number.
fn whole_line(s: &[u8], from: usize) -> Option<Command>
    requires { from ≤ length s.now }
    ensures within { IfSome result (λ c. Within (length s.now) c) }
    ensures result_value { value_in s.now result ≡ parse_whole (drop from s.now) }
{
    let length = last_number(s, from)?;
    Some(Command::Whole(WholeLine { length }))
}

// N, at most the longest reply buffer.
fn buffer_line(s: &[u8], from: usize) -> Option<Command>
    requires { from ≤ length s.now }
    ensures within { IfSome result (λ c. Within (length s.now) c) }
    ensures result_value { value_in s.now result ≡ parse_buffer (drop from s.now) }
{
    let length = last_number(s, from)?;
    if LONGEST_REPLY < length {
        return None;
    }
    Some(Command::Buffer(BufferLine { length }))
}

// The word on or the word off.
pub fn read_switch(word: &[u8]) -> Option<bool>
    ensures { result ≡ switch_of word.now }
{
    if is(word, b"on") {
        return Some(true);
    }
    if is(word, b"off") {
        return Some(false);
    }
    None
}

// on or off
fn selection_line(s: &[u8], from: usize) -> Option<Command>
    requires { from ≤ length s.now }
    ensures within { IfSome result (λ c. Within (length s.now) c) }
    ensures result_value { value_in s.now result ≡ parse_selection (drop from s.now) }
{
    let w = console_words::next_word(s, from);
    let on = read_switch(&s[w.start..w.end])?;
    if !console_words::ends(s, w.end) {
        return None;
    }
    Some(Command::Selection(SelectionLine { on }))
}

// No further word.
fn sheet_line(s: &[u8], from: usize) -> Option<Command>
    requires { from ≤ length s.now }
    ensures within { IfSome result (λ c. Within (length s.now) c) }
    ensures result_value { value_in s.now result ≡ parse_sheet (drop from s.now) }
{
    if !console_words::ends(s, from) {
        return None;
    }
    Some(Command::Sheet)
}

// What the words after a name spell.
fn read_words(name: Name, s: &mut [u8], from: usize) -> Option<Command>
    requires { from ≤ length s.old }
    ensures within { IfSome result (λ c. Within (length s.old) c) }
    ensures result_after { value_in s.new result ≡ parse_words name (drop from s.old) }
{
    match name {
        Name::Call(c) => call_line(c, s, from),
        Name::Mark => mark_line(s, from),
        Name::Open => open_line(s, from),
        Name::Load => Some(Command::Load(console_words::last_octets(s, from)?)),
        Name::Save => save_line(s, from),
        Name::Sheet => sheet_line(s, from),
        Name::Read => Some(Command::Read(console_words::last_octets(s, from)?)),
        Name::Write => Some(Command::Write(WriteLine { from })),
        Name::Figures => figures_line(s, from),
        Name::Counts => counts_line(s, from),
        Name::Whole => whole_line(s, from),
        Name::Buffer => buffer_line(s, from),
        Name::Selection => selection_line(s, from),
    }
}

// How many bytes of a line there are without a carriage return at its end.
pub fn without_return(line: &[u8]) -> usize
    ensures { (result ≡ unreturned line.now) × (result ≤ length line.now) }
{
    let n = line.len();
    if 0 < n {
        if line[n - 1] == b'\r' {
            return n - 1;
        }
    }
    n
}

// Reads a line without its newline and a carriage return before that. Octets are written over the words that spell them.
pub fn read_command(s: &mut [u8]) -> Option<Command>
    ensures within { IfSome result (λ c. Within (length s.old) c) }
    ensures result_after { value_in s.new result ≡ parse_line s.old }
{
    if LONGEST < s.len() {
        return None;
    }
    let w = console_words::next_word(s, 0);
    if w.start == w.end {
        return Some(Command::Nothing);
    }
    if s[w.start] == b'#' {
        return Some(Command::Nothing);
    }
    let name = read_name(&s[w.start..w.end])?;
    read_words(name, s, w.end)
}

// COUNTS

// The row that the octets from a place on spell, low bytes first.
fn row_in(octets: &[u8], at: usize) -> [u16; LENGTHS]
    requires { at + 2 * counted_lengths ≤ length octets.now }
    ensures { result ≡ numbers_in counted_lengths (drop at octets.now) }
{
    let mut row = [0u16; LENGTHS];
    for j in 0..LENGTHS {
        row[j] = u16::from_le_bytes([octets[at + 2 * j], octets[at + 2 * j + 1]]);
    }
    row
}

// The counts that the octets of a `counts` line spell.
pub fn counts_in(octets: &[u8]) -> Counts
    requires { length octets.now ≡ counts_size }
    ensures { result ≡ counts_in octets.now }
{
    let mut rows = [[0u16; LENGTHS]; POOLS];
    for k in 0..POOLS {
        rows[k] = row_in(octets, 2 * LENGTHS * k);
    }
    rows
}
