// How much is left, counted in an image: the whole free blocks of each pool and each length, by levels, in one pass over its leases. Of a lease
// only network and length are read.
#![tactic(auto)]

ghost use Rattle.std.specs.Prelude.{◌≡◌, [], ◌+◌, ◌-◌, ◌*◌, ◌≤◌, ◌<◌, length};
ghost use Rattle.prefix.specs.Prefixes.{longest, end};
ghost use Rattle.table.specs.declared.LeaseTable.{LeaseTable};
ghost use Rattle.table.specs.Table.{lease_slots, shortest_pool};
ghost use Rattle.image.specs.Image.{lease_size};
ghost use Rattle.counts.specs.Counts.{counted_lengths, counts_of, same_counts?};
ghost use Rattle.counts.specs.InnerLevels.{frees_after};
ghost use Rattle.image_counts.specs.Standing.{Stands, SomeTable};
ghost use Rattle.image_counts.specs.InnerTally.{no_row, lease_at, Short, Few, both_of, Tallied, total, frees_on, Ready, Counted};

use counts::{Counts, LENGTHS};
use image::{HEAD, LEASE, POOL};
use prefix::Prefix;
use table::{POOLS, SHORTEST_POOL};

// A lease can open at the lengths 0 to 33.
const LEVELS: usize = 34;

// Leases are counted by length on two sides in turn, one side behind the other: neighbours often have the same length, and on two sides the next
// increment need not wait for the one before it.
const SIDES: usize = 2 * LEVELS;

// The first length that is counted.
const FIRST: usize = SHORTEST_POOL as usize;

// The next lease, and of the leases of a pool before it how many open at each length, and how many have each length, on two sides.
#[derive(Drop)]
struct Tally {
    next: usize,
    opened: [u16; LEVELS],
    sides: [u16; SIDES],
}

// The leases of a pool, of which the one at the place `at` is the first. It opens at the pool's length, each later one after the bits that its network
// has in common with the one before it.
fn in_pool(image: &[u8], from: usize, n: usize, p: Prefix, at: usize) -> Tally
    requires { (from + lease_size * n ≤ length image.now) × (n ≤ lease_slots) × (at < n) × (p.length ≤ 32) × Short image.now from n × ((lease_at image.now from at).network < end p) }
    ensures { Tallied image.now from n p at result }
{
    let stop = p.end();
    let mut opened = [0u16; LEVELS];
    let mut sides = [0u16; SIDES];
    let first = from + LEASE * at;
    let mut before = image::network_at(image, first);
    let top = p.length as usize;
    opened[top] = 1;
    let bottom = image::length_at(image, first) as usize;
    sides[bottom] = 1;
    for i in at + 1..n {
        let record = from + LEASE * i;
        let network = image::network_at(image, record);
        if stop <= (network as u64) {
            return Tally {
                next: i,
                opened,
                sides,
            };
        }
        let k = (counts::common_bits(before, network) + 1) as usize;
        opened[k] += 1;
        let l = image::length_at(image, record) as usize;
        let side = LEVELS * (i % 2);
        sides[side + l] += 1;
        before = network;
    }
    Tally {
        next: n,
        opened,
        sides,
    }
}

// The row of a pool that has leases, into a row of zeros. It has nothing at lengths below the pool's, and at that length the pool itself counts: its
// place comes first, so that the others need no test. Both sides are added here, where one pass sums them up anyway.
fn fill(pool: u8, opened: [u16; LEVELS], sides: [u16; SIDES], row: &mut [u16; LENGTHS])
    requires { (shortest_pool ≤ pool) × (pool ≤ longest) × Few opened × Few (both_of sides) × (total (pool - 1) opened ≡ 0) × (total (pool - 1) (both_of sides) ≡ 0) × (row.old ≡ no_row) }
    ensures { row.new ≡ frees_on pool opened (both_of sides) (shortest_pool - 1) counted_lengths }
{
    let top = pool as usize;
    let mut up = opened[top];
    let mut down = sides[top] + sides[LEVELS + top];
    let at = top - FIRST;
    row[at] = 1u16.saturating_sub(up);
    for j in at + 1..LENGTHS {
        let l = j + FIRST;
        row[j] = up.saturating_sub(opened[l] + down);
        up += opened[l];
        down += sides[l] + sides[LEVELS + l];
    }
}

// The row of a pool that has no lease: the pool itself.
fn bare(pool: u8, row: &mut [u16; LENGTHS])
    requires { (shortest_pool ≤ pool) × (pool ≤ longest) × (row.old ≡ no_row) }
    ensures { row.new ≡ frees_after pool [] [] (shortest_pool - 1) counted_lengths }
{
    let j = (pool - SHORTEST_POOL) as usize;
    row[j] = 1;
}

// The row of a pool, into a row of zeros, where the place `at` is that of the next lease, be it one of the pool or of a later one; the place of the
// lease after those of the pool.
fn pool_row(
    image: &[u8],
    from: usize,
    n: usize,
    p: Prefix,
    at: usize,
    row: &mut [u16; LENGTHS],
) -> usize
    requires { Ready image.now from n p at × (at < n) × (row.old ≡ no_row) }
    ensures { Counted image.now from n p at result row.new }
{
    let first = image::network_at(image, from + LEASE * at) as u64;
    if p.end() <= first {
        bare(p.length, row);
        return at;
    }
    let t = in_pool(image, from, n, p, at);
    let opened = t.opened;
    let sides = t.sides;
    fill(p.length, opened, sides, row);
    t.next
}

// The counts of a table, from its image, as the counts that are kept: "Every call that changes lines keeps it equal to what a fresh walk would find".
// The pools after the last lease have no lease, and need no look at one.
pub fn recount(image: &[u8], pools: usize, leases: usize, counts: &mut Counts)
    requires { SomeTable image.now pools leases }
    ensures { (t : LeaseTable) → Stands t image.now pools leases → counts.new ≡ counts_of t }
{
    let from = HEAD + POOL * pools;
    let none = [0u16; LENGTHS];
    *counts = [none; POOLS];
    let mut next: usize = 0;
    let mut bare_from: usize = 0;
    for j in 0..pools {
        if leases <= next {
            break;
        }
        let p = image_check::pool(&image[HEAD..], j);
        next = pool_row(image, from, leases, p, next, &mut counts[j]);
        bare_from = j + 1;
    }
    for k in bare_from..pools {
        let p = image_check::pool(&image[HEAD..], k);
        bare(p.length, &mut counts[k]);
    }
}

// The counts of a table, from its image.
pub fn counts_in(image: &[u8], pools: usize, leases: usize) -> Counts
    requires { SomeTable image.now pools leases }
    ensures { (t : LeaseTable) → Stands t image.now pools leases → result ≡ counts_of t }
{
    let none = [0u16; LENGTHS];
    let mut counts = [none; POOLS];
    recount(image, pools, leases, &mut counts);
    counts
}

// Whether these are the counts of the table: "a book whose counts differ is unsound".
pub fn counted(image: &[u8], pools: usize, leases: usize, counts: &Counts) -> bool
    requires { SomeTable image.now pools leases }
    ensures { (t : LeaseTable) → Stands t image.now pools leases → result ≡ same_counts? counts.now (counts_of t) }
{
    let fresh = counts_in(image, pools, leases);
    counts::same(*counts, fresh)
}
