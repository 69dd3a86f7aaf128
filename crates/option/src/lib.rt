// Options 220 (RFC 6656) and 118 (RFC 3011), read from bytes.
#![tactic(auto)]

ghost use Rattle.std.specs.Prelude.{◌≡◌, true, ◌+◌, ◌≤◌, ◌<◌, length, set};
ghost use Rattle.option.specs.Values.{longest_option};
ghost use Rattle.option.specs.Reading.{
  option?,
  read_entries,
  read_request,
  read_information,
  read_name,
  read_body,
  read_suboption,
  read_suboptions,
  fault_number,
  ended,
  read_option,
};
ghost use Rattle.option.specs.Answers.{
  cursor_at,
  step_of,
  checked_of,
  checked_end,
  selected_by,
  InColumns,
  Stores,
};
ghost use Rattle.option.specs.Inner.{scan_of, body_of};
ghost use Rattle.option.specs.declared.Fault.TheVariants as fault;
ghost use Rattle.option.specs.declared.OptionFault.TheVariants as option-fault;
ghost use Rattle.option.specs.Selection.{read_selection};

pub use option_entry::{CutEntry, EntryCursor, EntryFields, Figures};

// Len is a byte, and leaves out Code and Len: no option is longer.
pub const LONGEST_OPTION: usize = 257;

// "the option has 1 to 25 requests"
pub const MOST_REQUESTS: usize = 25;

// No option has more entries, and no reply shows more.
pub const MOST_ENTRIES: usize = 35;

// In each of these `at` is the place of the suboption's number byte.
#[derive(Clone, Copy)]
pub struct RequestFields {
    pub h: bool,
    pub i: bool,
    pub length: u8,
    pub at: usize,
}

// Of the entries: where they stand, how many they are, and the network of the last one.
#[derive(Clone, Copy)]
pub struct InformationFields {
    pub c: bool,
    pub s: bool,
    pub at: usize,
    pub entries: EntryCursor,
    pub count: usize,
    pub last: u32,
}

// The octets stand from `start` to `end`.
#[derive(Clone, Copy)]
pub struct NameFields {
    pub at: usize,
    pub start: usize,
    pub end: usize,
}

#[derive(Clone, Copy)]
pub struct UnknownFields {
    pub at: usize,
    pub end: usize,
}

#[derive(Clone, Copy)]
pub enum Suboption {
    Request(RequestFields),
    Information(InformationFields),
    Name(NameFields),
    Unknown(UnknownFields),
}

// A place of the option at which a suboption begins.
#[derive(Clone, Copy)]
pub struct Cursor {
    pub at: usize,
}

// What is wrong with a suboption: its framing (refusal 7), or a field of one that is framed (refusal 16).
#[derive(Clone, Copy, Debug, PartialEq, Eq)]
pub enum Fault {
    Framing,
    Field,
}

// A suboption that is bad, by the place of its number byte.
#[derive(Clone, Copy, Debug, PartialEq, Eq)]
pub struct BadSuboption {
    pub fault: Fault,
    pub place: usize,
}

// Why an option is refused: refusal 6, or 7 or 16 with its place.
#[derive(Clone, Copy, Debug, PartialEq, Eq)]
pub enum OptionFault {
    NotTheOption,
    BadSuboption(BadSuboption),
}

// A cut entry is a matter of the framing.
impl From<CutEntry> for Fault {
    ghost from_gives = { λ _ f. f ≡ fault.Framing };

    fn from(_cut: CutEntry) -> Fault {
        Self::Framing
    }
}

impl From<BadSuboption> for OptionFault {
    ghost from_gives = { λ bad f. f ≡ option-fault.BadSuboption bad };

    fn from(bad: BadSuboption) -> OptionFault {
        Self::BadSuboption(bad)
    }
}

// Of the entries of an information: how many they are, and the network of the last one.
#[derive(Clone, Copy)]
struct Entries {
    count: usize,
    last: u32,
}

// One value, where the column has that place.
pub fn store<T: Copy>(column: &mut [T], at: usize, x: T)
    ensures { column.new ≡ set column.old at x }
{
    if at < column.len() {
        column[at] = x;
    }
}

// One pass over the entries of an information: they are tested, and stored in the columns after the `from` that these have. Framing
// comes first: an entry with a bad field does not end the pass.
fn scan_entries(
    s: &[u8],
    at: usize,
    end: usize,
    from: usize,
    networks: &mut [u32],
    lengths: &mut [u8],
) -> Result<Entries, Fault>
    requires { (at ≤ end) × (from ≤ at) }
    ensures value { result ≡ scan_of (read_entries s.now end at) }
    ensures in_columns { InColumns (read_entries s.now end at).0 from networks.old lengths.old networks.new lengths.new }
{
    let mut cursor = EntryCursor { at, end };
    let mut n = from;
    let mut good = true;
    let mut last: u32 = 0;
    while let Some((e, next)) = cursor.step(s)? {
        good &= prefix::is_block(e.network, e.length);
        last = e.network;
        store(networks, n, last);
        store(lengths, n, e.length);
        n += 1;
        cursor = next;
    }
    if !good {
        return Err(Fault::Field);
    }
    Ok(Entries {
        count: n - from,
        last,
    })
}

// A request whose number byte is at a place and that ends before `end`: framing, then fields.
fn request_at(s: &[u8], at: usize, end: usize) -> Result<Suboption, Fault>
    requires { (at + 2 ≤ end) × (end ≤ length s.now) }
    ensures { result ≡ body_of at (read_request s.now at end) }
{
    if end != at + 4 {
        return Err(Fault::Framing);
    }
    let length = s[at + 3];
    if prefix::Prefix::LONGEST < length {
        return Err(Fault::Field);
    }
    let flags = s[at + 2];
    Ok(Suboption::Request(RequestFields {
        h: flags % 2 == 1,
        i: flags / 2 % 2 == 1,
        length,
        at,
    }))
}

// An information, likewise, its entries into the columns.
fn information_at(
    s: &[u8],
    at: usize,
    end: usize,
    from: usize,
    networks: &mut [u32],
    lengths: &mut [u8],
) -> Result<Suboption, Fault>
    requires { (at + 2 ≤ end) × (end ≤ length s.now) × (from ≤ at) }
    ensures value { result ≡ body_of at (read_information s.now at end) }
    ensures stores { Stores (read_information s.now at end) from networks.old lengths.old networks.new lengths.new }
{
    if end <= at + 3 {
        return Err(Fault::Framing);
    }
    let Entries { count, last } = scan_entries(s, at + 3, end, from, networks, lengths)?;
    let flags = s[at + 2];
    Ok(Suboption::Information(InformationFields {
        c: flags / 2 % 2 == 1,
        s: flags % 2 == 1,
        at,
        entries: EntryCursor { at: at + 3, end },
        count,
        last,
    }))
}

// A name, likewise.
fn name_at(s: &[u8], at: usize, end: usize) -> Result<Suboption, Fault>
    requires { (at + 2 ≤ end) × (end ≤ length s.now) }
    ensures { result ≡ body_of at (read_name s.now at end) }
{
    if end <= at + 2 {
        return Err(Fault::Framing);
    }
    if s[end - 1] == 0 {
        return Err(Fault::Field);
    }
    Ok(Suboption::Name(NameFields {
        at,
        start: at + 2,
        end,
    }))
}

// Any suboption, likewise, by its number.
// Stays: the numbers are those of the option's suboptions.
fn body_at(
    number: u8,
    s: &[u8],
    at: usize,
    end: usize,
    from: usize,
    networks: &mut [u32],
    lengths: &mut [u8],
) -> Result<Suboption, Fault>
    requires { (at + 2 ≤ end) × (end ≤ length s.now) × (from ≤ at) }
    ensures value { result ≡ body_of at (read_body number s.now at end) }
    ensures stores { Stores (read_body number s.now at end) from networks.old lengths.old networks.new lengths.new }
{
    match number {
        1 => request_at(s, at, end),
        2 => information_at(s, at, end, from, networks, lengths),
        3 => name_at(s, at, end),
        _ => Ok(Suboption::Unknown(UnknownFields { at, end })),
    }
}

impl Fault {
    // The number of its row.
    pub fn number(self) -> u32
        ensures { result ≡ fault_number self }
    {
        match self {
            Fault::Framing => 7,
            Fault::Field => 16,
        }
    }
}

impl Cursor {
    // The place of an option's first suboption.
    pub fn first() -> Cursor
        ensures { result ≡ cursor_at 3 }
    {
        Cursor { at: 3 }
    }

    // What stands at the cursor: a suboption with the cursor after it, or nothing more at the end of the bytes or past it. Networks and
    // lengths of an information's entries go into the columns, after the `from` that these have, as the entries are tested; a bad
    // suboption may leave some there.
    pub fn step_into(
        self,
        s: &[u8],
        from: usize,
        networks: &mut [u32],
        lengths: &mut [u8],
    ) -> Result<Option<(Suboption, Cursor)>, BadSuboption>
        requires { from ≤ self.at }
        ensures value { result ≡ step_of self.at (read_suboption s.now self.at) }
        ensures stores { Stores (read_suboption s.now self.at) from networks.old lengths.old networks.new lengths.new }
    {
        let at = self.at;
        if s.len() <= at {
            return Ok(None);
        }
        if s.len() < at + 2 {
            return Err(BadSuboption {
                fault: Fault::Framing,
                place: at,
            });
        }
        let end = at + 2 + usize::from(s[at + 1]);
        if s.len() < end {
            return Err(BadSuboption {
                fault: Fault::Framing,
                place: at,
            });
        }
        match body_at(s[at], s, at, end, from, networks, lengths) {
            Ok(x) => Ok(Some((x, Cursor { at: end }))),
            Err(fault) => Err(BadSuboption { fault, place: at }),
        }
    }

    // The same with no columns.
    pub fn step(self, s: &[u8]) -> Result<Option<(Suboption, Cursor)>, BadSuboption>
        ensures { result ≡ step_of self.at (read_suboption s.now self.at) }
    {
        self.step_into(s, 0, &mut [], &mut [])
    }
}

// The check of the suboptions.
fn check_suboptions(s: &[u8]) -> Result<(), BadSuboption>
    requires { 3 ≤ length s.now }
    ensures { result ≡ checked_end (read_suboptions s.now 3).1 }
{
    let mut cursor = Cursor::first();
    while let Some((_, next)) = cursor.step(s)? {
        cursor = next;
    }
    Ok(())
}

// Row 6: whether these bytes are an option 220.
pub fn is_option(s: &[u8]) -> bool
    ensures { (result ≡ option? s.now) × (result ≡ true → length s.now ≤ longest_option) }
{
    if s.len() < 2 {
        return false;
    }
    if s[0] != 220 {
        return false;
    }
    let len = usize::from(s[1]);
    if len + 2 != s.len() {
        return false;
    }
    if len < 2 {
        return false;
    }
    true
}

// The check of a whole option, in one pass: the first refusal in row order.
pub fn check_option(s: &[u8]) -> Result<(), OptionFault>
    ensures { result ≡ checked_of (read_option s.now) }
{
    if !is_option(s) {
        return Err(OptionFault::NotTheOption);
    }
    check_suboptions(s)?;
    Ok(())
}

// Option 118: the address of the subnet that is asked for, as it stands; nothing of what is no option 118 (refusal 6).
pub fn read_selection(s: &[u8]) -> Option<u32>
    ensures { selected_by result ≡ read_selection s.now }
{
    if s.len() < 2 {
        return None;
    }
    if s[0] != 118 {
        return None;
    }
    let counted = usize::from(s[1]);
    if counted + 2 != s.len() {
        return None;
    }
    if counted != 4 {
        return None;
    }
    Some(option_entry::four_at(s, 2))
}
