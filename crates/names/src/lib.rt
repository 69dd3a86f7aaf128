// A lease's name (document 02, M-105): 0 to 24 octets, the last not zero.
#![tactic(auto)]

ghost use Rattle.std.specs.Prelude.{◌≡◌, ◌+◌, ◌≤◌, ◌<◌, length, take, drop};
ghost use Rattle.lists.specs.Put.{put};
ghost use Rattle.names.specs.Names.{no_name, longest_name, name_octets, name_length, name_in, name_of, octets, spells};
ghost use Rattle.names.specs.Inner.{word_length};

// How many octets the longest name has.
pub const LONGEST: usize = 24;

// The octets eight to a word, low octet first, and zero after the name: so a name is read, compared, moved and measured as three words.
#[derive(Clone, Copy, Default)]
pub struct Name {
    pub first: u64,
    pub second: u64,
    pub third: u64,
}

pub fn no_name() -> Name
    ensures { result ≡ no_name }
{
    Name::default()
}

// WORDS

// The word that the eight bytes from a position on spell: one load when compiled.
pub fn read64(s: &[u8], at: usize) -> u64
    requires { at + 8 ≤ length s.now }
    ensures { result ≡ spells (take 8 (drop at s.now)) }
{
    u64::from_le_bytes(octets::chunk_at(s, at))
}

// One store when compiled.
pub fn put64(out: &mut [u8], at: usize, n: u64)
    requires { at + 8 ≤ length out.old }
    ensures { out.new ≡ put out.old at (octets 8 n) }
{
    octets::put_chunk(out, at, n.to_le_bytes());
}

// How many octets a word has up to its last that is not zero.
fn word_length(w: u64) -> u8
    ensures { result ≡ word_length w }
{
    8 - (w.leading_zeros() / 8) as u8
}

// NAMES

// The name in the 24 bytes from a position on.
pub fn name_at(s: &[u8], at: usize) -> Name
    requires { at + longest_name ≤ length s.now }
    ensures { result ≡ name_in (drop at s.now) }
{
    Name {
        first: read64(s, at),
        second: read64(s, at + 8),
        third: read64(s, at + 16),
    }
}

pub fn put_name(out: &mut [u8], at: usize, n: Name)
    requires { at + longest_name ≤ length out.old }
    ensures { out.new ≡ put out.old at (name_octets n) }
{
    put64(out, at, n.first);
    put64(out, at + 8, n.second);
    put64(out, at + 16, n.third);
}

// How many octets a name has.
pub fn length(n: Name) -> u8
    ensures { result ≡ name_length n }
{
    if n.third != 0 {
        return 16 + word_length(n.third);
    }
    if n.second != 0 {
        return 8 + word_length(n.second);
    }
    word_length(n.first)
}

// The name of the n bytes from a position on.
pub fn name_in(s: &[u8], at: usize, n: usize) -> Name
    requires { (at + n ≤ length s.now) × (n ≤ longest_name) }
    ensures { result ≡ name_of (take n (drop at s.now)) }
{
    let mut array = [0u8; LONGEST];
    let end = at + n;
    octets::copy(&s[at..end], &mut array);
    name_at(&array, 0)
}

// The 24 octets of a name.
pub fn octets(n: Name) -> [u8; LONGEST]
    ensures { result ≡ name_octets n }
{
    let mut out = [0u8; LONGEST];
    put_name(&mut out, 0, n);
    out
}
