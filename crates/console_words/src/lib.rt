// The words of a line, and the numbers, prefixes and octets that words spell.
#![tactic(auto)]

ghost use Rattle.std.specs.Prelude.{◌≡◌, ◌≤◌, ◌<◌, ◌/◌, ◌%◌, ◌==◌, length, drop, IfSome};
ghost use Rattle.std.specs.List.{take_while};
ghost use Rattle.std.specs.Fn.{FnReturnsAt};
ghost use Rattle.console_words.specs.Words.{skip_spaces, NextWord, first_word, after_word, between, last?};
ghost use Rattle.console_words.specs.Numbers.{digit?, number_of, octet_of, flag_of, NextNumber};
ghost use Rattle.console_words.specs.Prefixes.{
  network_of,
  prefix_of,
  prefixes_of,
  NextPrefix,
  prefixes_in,
};
ghost use Rattle.console_words.specs.InnerPrefixes.{NextOctet};
ghost use Rattle.console_words.specs.Octets.{digit_of, pairs_of, octets_of, last_octets, octets_in, front};

// A word stands from `start` to before `end`; where no further word is there, it is empty.
#[derive(Clone, Copy)]
pub struct Word {
    pub start: usize,
    pub end: usize,
}

// What a word spells, if it does, and the place after it.
#[derive(Clone, Copy)]
pub struct Spelled<T> {
    pub value: Option<T>,
    pub end: usize,
}

// A network and a length, whatever their alignment.
#[derive(Clone, Copy)]
pub struct PrefixWord {
    pub network: u32,
    pub length: u8,
}

// Octets stand from `start` to before `end` in the line, in place of the word that spells them.
#[derive(Clone, Copy)]
pub struct Octets {
    pub start: usize,
    pub end: usize,
}

// WORDS

// How many spaces stand at the front.
fn spaces(s: &[u8]) -> usize
    ensures count { result ≡ length (take_while (λ x. x == 32) s.now) }
    ensures in_bounds { result ≤ length s.now }
{
    s.iter().take_while(|c| **c == b' ').count()
}

// The first place at or after `from` that has no space, or the end.
fn skip_spaces(s: &[u8], from: usize) -> usize
    requires { from ≤ length s.now }
    ensures { (from ≤ result) × (result ≤ length s.now) × (drop result s.now ≡ skip_spaces (drop from s.now)) }
{
    from + spaces(&s[from..])
}

// The next word at or after a place.
pub fn next_word(s: &[u8], from: usize) -> Word
    requires { from ≤ length s.now }
    ensures { NextWord s.now from result }
{
    let start = skip_spaces(s, from);
    let end = octets::find(s, start, b' ');
    Word { start, end }
}

// No further word stands at or after a place.
pub fn ends(s: &[u8], from: usize) -> bool
    requires { from ≤ length s.now }
    ensures { result ≡ last? (drop from s.now) }
{
    skip_spaces(s, from) == s.len()
}

// The next word as what `read` makes of it.
fn next<T, F: Fn(&[u8]) -> Option<T> + Drop>(s: &[u8], from: usize, read: F) -> Spelled<T>
    requires from_in_bounds { from ≤ length s.now }
    requires callable { F.IsAlwaysCallable read }
    ensures inside { result.end ≤ length s.now }
    ensures spelled { FnReturnsAt F.Fn read (first_word (drop from s.now)) result.value }
    ensures rest { drop result.end s.now ≡ after_word (drop from s.now) }
{
    let w = next_word(s, from);
    Spelled {
        value: read(&s[w.start..w.end]),
        end: w.end,
    }
}

// NUMBERS

// Whether a byte is one of 0 to 9.
fn is_digit(c: u8) -> bool
    ensures { result ≡ digit? c }
{
    c.is_ascii_digit()
}

// Decimal digits with a value below 2^32, any number of leading zeros.
pub fn read_number(s: &[u8]) -> Option<u32>
    ensures { result ≡ number_of s.now }
{
    if s.is_empty() {
        return None;
    }
    let mut n: u64 = 0;
    for c in s {
        if !is_digit(*c) {
            return None;
        }
        n = 10 * n + u64::from(*c - b'0');
        if u64::from(u32::MAX) < n {
            return None;
        }
    }
    Some(n as u32)
}

// The next word as a number.
pub fn next_number(s: &[u8], from: usize) -> Spelled<u32>
    requires { from ≤ length s.now }
    ensures { NextNumber number_of s.now from result }
{
    next(s, from, read_number)
}

// A number below 256.
fn read_octet(s: &[u8]) -> Option<u8>
    ensures { result ≡ octet_of (number_of s.now) }
{
    let n = read_number(s)?;
    u8::try_from(n).ok()
}

// The word 0 or the word 1.
pub fn read_flag(s: &[u8]) -> Option<u32>
    ensures { result ≡ flag_of s.now }
{
    match s {
        b"0" => Some(0),
        b"1" => Some(1),
        _ => None,
    }
}

// The next word as 0 or 1.
pub fn next_flag(s: &[u8], from: usize) -> Spelled<u32>
    requires { from ≤ length s.now }
    ensures { NextNumber flag_of s.now from result }
{
    next(s, from, read_flag)
}

// The next word as a key and a number behind it.
// Stays: `next_field` and `next_bit` are one call each, with a reader of its own.
pub fn next_field(s: &[u8], from: usize, key: &[u8]) -> Spelled<u32>
    requires { from ≤ length s.now }
    ensures { result.end ≤ length s.now }
{
    next(s, from, |word| read_number(word.strip_prefix(key)?))
}

// The next word as a key and 0 or 1 behind it.
pub fn next_bit(s: &[u8], from: usize, key: &[u8]) -> Spelled<u32>
    requires { from ≤ length s.now }
    ensures { result.end ≤ length s.now }
{
    next(s, from, |word| read_flag(word.strip_prefix(key)?))
}

// PREFIXES

// The octet that stands from a place to before the next dot, or to the end.
fn octet_at(s: &[u8], from: usize) -> Spelled<u8>
    requires { from ≤ length s.now }
    ensures { NextOctet s.now from result }
{
    let end = octets::find(s, from, b'.');
    let value = read_octet(&s[from..end]);
    Spelled { value, end }
}

// A.B.C.D, each a number below 256.
pub fn read_network(s: &[u8]) -> Option<u32>
    ensures { result ≡ network_of s.now }
{
    let mut at: usize = 0;
    let mut n: u32 = 0;
    for _ in 0..3usize {
        let a = octet_at(s, at);
        let x = a.value?;
        if a.end == s.len() {
            return None;
        }
        n = n * 256 + u32::from(x);
        at = a.end + 1;
    }
    let last = read_octet(&s[at..])?;
    Some(n * 256 + u32::from(last))
}

// A.B.C.D/L, each a number below 256.
pub fn read_prefix(s: &[u8]) -> Option<PrefixWord>
    ensures { result ≡ prefix_of s.now }
{
    let at = octets::find(s, 0, b'/');
    if at == s.len() {
        return None;
    }
    let network = read_network(&s[..at])?;
    let length = read_octet(&s[at + 1..])?;
    Some(PrefixWord { network, length })
}

// The next word as a prefix.
pub fn next_prefix(s: &[u8], from: usize) -> Spelled<PrefixWord>
    requires { from ≤ length s.now }
    ensures { NextPrefix s.now from result }
{
    next(s, from, read_prefix)
}

// The words from a place on, each a prefix, into the front of two buffers; how many they are. More than these hold are bad.
// Stays: networks and lengths in two buffers, as the C interface takes them.
pub fn read_prefixes(
    s: &[u8],
    from: usize,
    networks: &mut [u32],
    lengths: &mut [u8],
) -> Option<usize>
    requires from_in_bounds { from ≤ length s.now }
    requires networks_len { length networks.old ≡ length lengths.old }
    ensures count_in_bounds { IfSome result (λ n. n ≤ length networks.old) }
    ensures lengths_after { prefixes_in result networks.new lengths.new ≡ prefixes_of (length networks.old) (drop from s.now) }
{
    let mut at = from;
    let mut n: usize = 0;
    loop {
        let w = next_word(s, at);
        if w.start == w.end {
            return Some(n);
        }
        if n == networks.len() {
            return None;
        }
        let prefix = read_prefix(&s[w.start..w.end])?;
        networks[n] = prefix.network;
        lengths[n] = prefix.length;
        n += 1;
        at = w.end;
    }
}

// OCTETS

// The value of a hexadecimal digit in either case.
#[tactic(auto, unfolding(crate::specs::Octets::digit_of))]
pub fn digit(c: u8) -> Option<u8>
    ensures value { result ≡ digit_of c }
    ensures small { IfSome result (λ d. d < 16) }
{
    match c {
        b'0'..=b'9' => Some(c - b'0'),
        b'A'..=b'F' => Some(c - b'A' + 10),
        b'a'..=b'f' => Some(c - b'a' + 10),
        _ => None,
    }
}

// Pairs of hexadecimal digits, each as an octet, over the front of the same bytes; how many octets, if all are digits.
fn pairs(s: &mut [u8]) -> Option<usize>
    requires { length s.old % 2 ≡ 0 }
    ensures count { IfSome result (λ n. n ≡ length s.old / 2) }
    ensures value { front result s.new ≡ pairs_of s.old }
{
    let n = s.len() / 2;
    for i in 0..n {
        let high = digit(s[2 * i])?;
        let low = digit(s[2 * i + 1])?;
        s[i] = 16 * high + low;
    }
    Some(n)
}

// The octets that a word spells in hexadecimal, over the word itself; `-` spells none.
pub fn read_octets(s: &mut [u8], start: usize, end: usize) -> Option<Octets>
    requires { (start ≤ end) × (end ≤ length s.old) }
    ensures within { IfSome result (λ o. (o.start ≤ o.end) × (o.end ≤ length s.old)) }
    ensures end_after { octets_in s.new result ≡ octets_of (between start end s.old) }
{
    let n = end - start;
    if n == 0 {
        return None;
    }
    if n == 1 && s[start] == b'-' {
        return Some(Octets { start, end: start });
    }
    if n % 2 == 1 {
        return None;
    }
    let count = pairs(&mut s[start..end])?;
    Some(Octets {
        start,
        end: start + count,
    })
}

// The next word as octets, if it is the last one.
pub fn last_octets(s: &mut [u8], from: usize) -> Option<Octets>
    requires { from ≤ length s.old }
    ensures within { IfSome result (λ o. (o.start ≤ o.end) × (o.end ≤ length s.old)) }
    ensures end_after { octets_in s.new result ≡ last_octets (drop from s.old) }
{
    let w = next_word(s, from);
    if !ends(s, w.end) {
        return None;
    }
    read_octets(s, w.start, w.end)
}
