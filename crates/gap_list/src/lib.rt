// Free space as a list of gaps in a lent buffer, ascending. An ask looks at the gaps alone.
#![tactic(auto)]

ghost use Rattle.std.specs.Prelude.{◌≡◌, Option, false, ◌++◌, ◌+◌, ◌-◌, ◌≤◌, ◌<◌, length as length_of, take};
ghost use Rattle.std.specs.Int.Bits.{bit_or};
ghost use Rattle.prefix.specs.Prefixes.{prefix};
ghost use Rattle.gap_list.specs.Gaps.{between, without, LiesIn};
ghost use Rattle.gap_list.specs.Columns.{held, held_in, Kept, Carved, Fitted};
ghost use Rattle.gap_list.specs.InnerSearch.{doubled, Passed, NextLarge, cut_up, cut_down, bits_of, AtEnd};

// A gap by its two ends: its first address and its last one.
#[derive(Clone, Copy)]
pub struct Ends {
    pub first: u32,
    pub last: u32,
}

// A gap where there is none: it ends before it begins, and no search finds anything in it.
pub const EMPTY: Ends = Ends { first: 1, last: 0 };

// One gap more after the first n, if it is not empty; answers how many there are.
pub fn push(gaps: &mut [Ends], n: usize, from: u64, to: u64) -> usize
    requires { (n < length_of gaps.old) × (to ≤ 4294967296) }
    ensures { Kept n (held_in gaps.old n ++ between from to) result gaps.new }
{
    if from < to {
        gaps[n] = Ends {
            first: from as u32,
            last: (to - 1) as u32,
        };
        return n + 1;
    }
    n
}

// A whole free prefix, by its network and its size.
#[derive(Clone, Copy)]
pub struct Best {
    pub network: u64,
    pub size: u64,
}

// Whether a gap holds a whole prefix of a size, of which `mask` is one less: the first one that begins in it ends in it.
fn holds(gap: Ends, mask: u64) -> bool
    requires { mask < 4294967296 }
    ensures { result ≡ false → Passed gap.first gap.last mask }
{
    let up = u64::from(gap.first) + mask;
    up - (up & mask) + mask <= u64::from(gap.last)
}

// The next gap, from `from` on, that holds a whole prefix of a size, of which `mask` is one less.
fn next_large(gaps: &[Ends], mask: u64, from: usize) -> Option<usize>
    requires { (mask < 4294967296) × (from ≤ length_of gaps.now) }
    ensures { NextLarge gaps.now mask from result }
{
    let n = gaps.len();
    let mut i = from;
    // Stays: four gaps in a turn; a `for` with a gap in each took 1.7 times as long, and each request of an ask comes through here.
    while 3 < n - i {
        if holds(gaps[i], mask) {
            return Some(i);
        }
        if holds(gaps[i + 1], mask) {
            return Some(i + 1);
        }
        if holds(gaps[i + 2], mask) {
            return Some(i + 2);
        }
        if holds(gaps[i + 3], mask) {
            return Some(i + 3);
        }
        i += 4;
    }
    for k in i..n {
        if holds(gaps[k], mask) {
            return Some(k);
        }
    }
    None
}

// A gap from its first address to the one after its last, both cut to multiples of a size, of which `mask` is one less.
fn cut(gap: Ends, mask: u64) -> (u64, u64)
    requires { mask < 4294967296 }
    ensures low { result.0 ≡ cut_up mask gap.first }
    ensures high { result.1 ≡ cut_down mask (gap.last + 1) }
    ensures upper_bound { result.1 ≤ 4294967296 }
{
    let up = u64::from(gap.first) + mask;
    let to = u64::from(gap.last) + 1;
    (up - (up & mask), to - (to & mask))
}

// The bits of both ends of a range; none where nothing is between them.
fn bits(low: u64, high: u64) -> u64
    ensures { result ≡ bits_of low high }
{
    if low < high { low | high } else { 0 }
}

// The whole free prefixes in a range, cut to multiples of a size, rise in size from the lower end and fall to the upper end: the smallest stands at an
// end, and its size is the lowest bit of either end.
fn at_end(low: u64, high: u64, ends: u64) -> Best
    requires { (low < high) × (high ≤ 4294967296) × (ends ≡ bit_or low high) }
    ensures { AtEnd low high result }
{
    let size = ends - (ends & (ends - 1));
    if low & (size + size - 1) != 0 {
        return Best { network: low, size };
    }
    Best {
        network: high - size,
        size,
    }
}

// A fit: the gap that it lies in, and its network.
#[derive(Clone, Copy)]
pub struct Choice {
    pub index: usize,
    pub network: u32,
}

// The best fit for a length; stops at an exact fit.
pub fn fit(gaps: &[Ends], length: u8) -> Option<Choice>
    ensures { Fitted (held gaps.now) length result }
{
    if 32 < length {
        return None;
    }
    let size = prefix::size(length);
    let mask = size - 1;
    let mut best: Option<Choice> = None;
    // The size of the best so far, at first that of all addresses.
    let mut most: u64 = 4294967296;
    let mut from = 0;
    while let Some(index) = next_large(gaps, mask, from) {
        let (low, high) = cut(gaps[index], mask);
        let ends = bits(low, high);
        // Where both ends are multiples of the best's size, nothing in the gap is smaller.
        if ends & (most - 1) != 0 {
            let end = at_end(low, high, ends);
            let network = end.network as u32;
            best = Some(Choice { index, network });
            most = end.size;
            if most == size {
                return best;
            }
        }
        from = index + 1;
    }
    best
}

// A prefix taken out of the gap that it lies in: what is left of the gap on both sides stays in its place. Where nothing is left an empty gap stays: none of
// the others has to move.
pub fn carve(gaps: &mut [Ends], n: usize, index: usize, network: u32, length: u8) -> usize
    requires { (index < n) × (n < length_of gaps.old) × LiesIn (prefix network length) index (held_in gaps.old n) }
    ensures { Carved n (without (prefix network length) index (held_in gaps.old n)) result gaps.new }
{
    let gap = gaps[index];
    let last = u64::from(gap.last);
    let after = u64::from(network) + prefix::size(length);
    if gap.first < network {
        if after <= last {
            gaps.copy_within(index..n, index + 1);
            gaps[index + 1] = Ends {
                first: after as u32,
                ..gap
            };
            gaps[index] = Ends {
                last: network - 1,
                ..gap
            };
            return n + 1;
        }
        gaps[index] = Ends {
            last: network - 1,
            ..gap
        };
        return n;
    }
    if after <= last {
        gaps[index] = Ends {
            first: after as u32,
            ..gap
        };
        return n;
    }
    gaps[index] = EMPTY;
    n
}
