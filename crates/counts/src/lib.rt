// How much is left: the counts of whole free blocks, eight rows of twenty-three, compared and summed.
#![tactic(auto)]

ghost use Rattle.std.specs.Prelude.{◌≡◌, ◌*◌, ◌≤◌};
ghost use Rattle.counts.specs.Counts.{counted_lengths, same_row?, same_counts?, sum_at, row_total, total};
ghost use Rattle.counts.specs.InnerLevels.{common_bits};

use prefix::Prefix;
use table::{POOLS, SHORTEST_POOL};

// The lengths 8 to 30.
const SHORTEST: u32 = SHORTEST_POOL as u32;

const LONGEST: u32 = Prefix::LONGEST as u32;

pub const LENGTHS: usize = (LONGEST + 1 - SHORTEST) as usize;

pub type Counts = [[u16; LENGTHS]; POOLS];

// Whether two rows are the same.
fn same_row(a: [u16; LENGTHS], b: [u16; LENGTHS]) -> bool
    ensures { result ≡ same_row? a b }
{
    for j in 0..LENGTHS {
        if a[j] != b[j] {
            return false;
        }
    }
    true
}

// Whether two counts are the same, rows of unused pools included.
// Stays: number by number, since `==` borrows both arrays: with it every call that takes a book has a copy of the counts more on its stack, and
// compares for twice as long.
pub fn same(a: Counts, b: Counts) -> bool
    ensures { result ≡ same_counts? a b }
{
    for k in 0..POOLS {
        let x = a[k];
        let y = b[k];
        if !same_row(x, y) {
            return false;
        }
    }
    true
}

// How many whole free blocks of a length there are in all pools; none outside 8 to 30.
pub fn sum(c: Counts, length: u32) -> u32
    ensures { result ≡ sum_at c length }
{
    if !(SHORTEST..=LONGEST).contains(&length) {
        return 0;
    }
    let j = (length - SHORTEST) as usize;
    c.iter().map(|row| u32::from(row[j])).sum()
}

fn row_total(row: &[u16; LENGTHS]) -> u32
    ensures { (result ≡ row_total row.now) × (result ≤ 65535 * counted_lengths) }
{
    row.iter().map(|&n| u32::from(n)).sum()
}

// How many whole free blocks there are of any length.
pub fn total(c: Counts) -> u32
    ensures { result ≡ total c }
{
    c.iter().map(row_total).sum()
}

// Two networks lie in as many prefixes as this, and one more.
pub fn common_bits(a: u32, b: u32) -> u32
    ensures { (result ≡ common_bits a b) × (result ≤ 32) }
{
    u32::leading_zeros(a ^ b)
}
