// Text into a lent buffer, from a place on: each function answers the place after what it wrote, and leaves all other bytes.
#![tactic(auto)]

ghost use Rattle.std.specs.Prelude.{◌∷◌, ◌+◌, ◌≤◌, length};
ghost use Rattle.text.specs.Decimal.{decimal as decimal_of};
ghost use Rattle.text.specs.Wrote.{Width, Wrote, RoomFor, WroteNumber};

pub fn put(out: &mut [u8], at: usize, s: &[u8]) -> usize
    requires { at + length s.now ≤ length out.old }
    ensures { Wrote out.old at s.now out.new result }
{
    at + octets::copy(s, &mut out[at..])
}

// How many digits a number has: most that are shown are short.
// Stays: not by `ilog10`, which lays its table of powers out anew for each number: a sheet took a quarter longer with it.
fn width(n: u64) -> usize
    ensures { Width n result }
{
    let mut power: u64 = 1;
    for size in 1..20 {
        power *= 10;
        if n < power {
            return size;
        }
    }
    20
}

// A number in decimal, its last digits first, two at a time.
pub fn number(out: &mut [u8], at: usize, n: u64) -> usize
    requires { RoomFor n out.old at }
    ensures { WroteNumber n out.old at out.new result }
{
    let size = width(n);
    let mut left = n;
    for k in 0..size / 2 {
        let i = size - 2 * (k + 1);
        out[at + i + 1] = b'0' + (left % 10) as u8;
        out[at + i] = b'0' + (left / 10 % 10) as u8;
        left /= 100;
    }
    if size % 2 != 0 {
        out[at] = b'0' + (left % 10) as u8;
    }
    at + size
}

// A number of 32 bits.
pub fn decimal(out: &mut [u8], at: usize, n: u32) -> usize
    requires { at + length (decimal_of n) ≤ length out.old }
    ensures { Wrote out.old at (decimal_of n) out.new result }
{
    number(out, at, u64::from(n))
}

// A mark, and a number after it.
pub fn marked(out: &mut [u8], at: usize, mark: u8, n: u32) -> usize
    requires { at + 1 + length (decimal_of n) ≤ length out.old }
    ensures { Wrote out.old at (mark ∷ decimal_of n) out.new result }
{
    out[at] = mark;
    decimal(out, at + 1, n)
}
