// Text into a lent buffer, from a place on: each function answers the place after what it wrote, and leaves all other bytes.
#![tactic(auto)]

ghost use Rattle.std.specs.Prelude.{◌≡◌, ◌+◌, ◌-◌, ◌*◌, ◌^◌, ◌≤◌, ◌<◌, length};
ghost use Rattle.lists.specs.Lists.{concat_map};
ghost use Rattle.lists.specs.Put.{put};
ghost use Rattle.io.specs.Digits.{hex_digit_ascii as glyph_of, last_digits};
ghost use Rattle.console_text.specs.Text.{hex_of, Decimal, Filled};

pub fn text(out: &mut [u8], at: usize, s: &[u8]) -> usize
    requires { at + length s.now ≤ length out.old }
    ensures value { result ≡ at + length s.now }
    ensures out_after { out.new ≡ put out.old at s.now }
{
    text::put(out, at, s)
}

// A number in decimal, where it has no more digits than that.
fn decimal(out: &mut [u8], at: usize, n: u64, most: usize) -> usize
    requires n_bound { n < 10 ^ most }
    requires most_nonzero { (0 < most) × (at + most ≤ length out.old) }
    ensures lower_bound { (at ≤ result) × (result ≤ at + most) }
    ensures decimal { Decimal n out.old at out.new (result - at) }
{
    text::number(out, at, n)
}

// A number in decimal.
pub fn number(out: &mut [u8], at: usize, n: u64) -> usize
    requires { at + 20 ≤ length out.old }
    ensures lower_bound { (at ≤ result) × (result ≤ at + 20) }
    ensures decimal { Decimal n out.old at out.new (result - at) }
{
    decimal(out, at, n, 20)
}

// A pattern, with the next number in decimal for each `%` that one is left for. No such number has more than ten digits.
pub fn fill(out: &mut [u8], at: usize, pattern: &[u8], numbers: &[u32]) -> usize
    requires { at + length pattern.now + 9 * length numbers.now ≤ length out.old }
    ensures upper_bound { result ≤ at + length pattern.now + 9 * length numbers.now }
    ensures filled { Filled pattern.now numbers.now out.old at out.new result }
{
    let mut end = at;
    let mut left = numbers;
    for c in pattern {
        if *c == b'%' {
            if let [n, rest @ ..] = left {
                end = decimal(out, end, u64::from(*n), 10);
                left = rest;
                continue;
            }
        }
        out[end] = *c;
        end += 1;
    }
    end
}

// A hexadecimal digit, in lower case.
fn glyph(d: u8) -> u8
    requires { d < 16 }
    ensures { result ≡ glyph_of d }
{
    if d < 10 { b'0' + d } else { b'a' + (d - 10) }
}

// Octets in hexadecimal, two digits each.
pub fn octets(out: &mut [u8], at: usize, s: &[u8]) -> usize
    requires { at + 2 * length s.now ≤ length out.old }
    ensures value { result ≡ at + 2 * length s.now }
    ensures out_after { out.new ≡ put out.old at (concat_map hex_of s.now) }
{
    for (i, x) in s.iter().enumerate() {
        out[at + 2 * i] = glyph(*x / 16);
        out[at + 2 * i + 1] = glyph(*x % 16);
    }
    at + 2 * s.len()
}
