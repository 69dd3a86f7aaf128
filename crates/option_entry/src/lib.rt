// An entry of an information of option 220 (RFC 6656, section 3.2.1), read from bytes.
#![tactic(auto)]

ghost use Rattle.std.specs.Prelude.{◌≡◌, ◌+◌, ◌≤◌, ◌<◌, length};
ghost use Rattle.option_entry.specs.Entries.{two, four, figures_at, read_entry};
ghost use Rattle.option_entry.specs.Steps.{figures_of, entry_step_of};

// A type for each figure, so that one is never taken for another.
#[derive(Clone, Copy)]
pub struct HighWater(pub u16);

#[derive(Clone, Copy)]
pub struct InUse(pub u16);

#[derive(Clone, Copy)]
pub struct Unusable(pub u16);

// The figures of an entry: `count` of them, at most three.
#[derive(Clone, Copy)]
pub struct Figures {
    pub count: usize,
    pub high_water: HighWater,
    pub in_use: InUse,
    pub unusable: Unusable,
}

impl Figures {
    // None are given.
    pub const NONE: Figures = Figures {
        count: 0,
        high_water: HighWater(0),
        in_use: InUse(0),
        unusable: Unusable(0),
    };
}

#[derive(Clone, Copy)]
pub struct EntryFields {
    pub network: u32,
    pub length: u8,
    pub h: bool,
    pub d: bool,
    pub figures: Figures,
}

// The entries of an information that are still to be read: from `at` to `end`.
#[derive(Clone, Copy)]
pub struct EntryCursor {
    pub at: usize,
    pub end: usize,
}

// An entry that runs past the information, or has an odd stat-len.
#[derive(Clone, Copy, Debug, PartialEq, Eq)]
pub struct CutEntry;

// The number of two bytes at a position, the high byte first.
fn two_at(s: &[u8], at: usize) -> u16
    requires { at + 2 ≤ length s.now }
    ensures { result ≡ two s.now at }
{
    u16::from_be_bytes([s[at], s[at + 1]])
}

// The number of four bytes at a position, the high byte first.
pub fn four_at(s: &[u8], at: usize) -> u32
    requires { at + 4 ≤ length s.now }
    ensures { result ≡ four s.now at }
{
    u32::from_be_bytes([s[at], s[at + 1], s[at + 2], s[at + 3]])
}

// The figures in n bytes from a position on, of which the first three count.
fn figures_at(s: &[u8], at: usize, n: usize) -> Figures
    requires { at + n ≤ length s.now }
    ensures { result ≡ figures_of (figures_at s.now at n) }
{
    match n / 2 {
        0 => Figures::NONE,
        1 => Figures {
            count: 1,
            high_water: HighWater(two_at(s, at)),
            ..Figures::NONE
        },
        2 => Figures {
            count: 2,
            high_water: HighWater(two_at(s, at)),
            in_use: InUse(two_at(s, at + 2)),
            ..Figures::NONE
        },
        _ => Figures {
            count: 3,
            high_water: HighWater(two_at(s, at)),
            in_use: InUse(two_at(s, at + 2)),
            unusable: Unusable(two_at(s, at + 4)),
        },
    }
}

impl EntryCursor {
    // What stands at the cursor: an entry with the cursor after it, or nothing more. The walk goes by the framing alone: the fields are as
    // they stand.
    pub fn step(self, s: &[u8]) -> Result<Option<(EntryFields, EntryCursor)>, CutEntry>
        ensures { result ≡ entry_step_of self.end (read_entry s.now self.end self.at) }
    {
        let EntryCursor { at, end } = self;
        if end <= at {
            return Ok(None);
        }
        if s.len() < end {
            return Err(CutEntry);
        }
        if end < at + 7 {
            return Err(CutEntry);
        }
        let stat = s[at + 6];
        if stat % 2 != 0 {
            return Err(CutEntry);
        }
        let next = at + 7 + usize::from(stat);
        if end < next {
            return Err(CutEntry);
        }
        let flags = s[at + 5];
        let fields = EntryFields {
            network: four_at(s, at),
            length: s[at + 4],
            h: flags / 2 % 2 == 1,
            d: flags % 2 == 1,
            figures: figures_at(s, at + 7, usize::from(stat)),
        };
        Ok(Some((fields, EntryCursor { at: next, end })))
    }
}
