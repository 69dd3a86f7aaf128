// The ground of a call: with option 118 the pool that contains its address and the leases that lie in that pool, without it all of
// them; and that option in the reply.
#![tactic(auto)]

ghost use Rattle.std.specs.Prelude.{◌≡◌, true, List, ℕ, ◌+◌, ◌*◌, ◌≤◌, length, is_some, IfSome};
ghost use Rattle.prefix.specs.Prefixes.{end};
ghost use Rattle.option.specs.Reading.{four};
ghost use Rattle.table.specs.declared.Lease.{Lease};
ghost use Rattle.table.specs.Table.{addresses};
ghost use Rattle.image.specs.Image.{head_size, pool_size, lease_size};
ghost use Rattle.image_records.specs.Records.{Records, Ascending};
ghost use Rattle.ledger.specs.Answers.{answer_of};
ghost use Rattle.ledger.specs.Ledger.{Call, outcome};
ghost use Rattle.call_spec.specs.ImageCalls.{Lent, carried_if};
ghost use Rattle.call_rows.specs.Admission.{Admitted};
ghost use Rattle.call_ground.specs.Ground.{in_pool?, PoolOf, Before, LeasesIn, OfAdmitted, GroundOf, returning, MayReturn};

use call_rows::SELECTION;
use image::{HEAD, LEASE, POOL};
use image_check::ImageSummary;
use ledger::{Accepted, Refusal};
use prefix::Prefix;
use table::Pool;

// Whether an address lies in a pool, be it that of an unused slot.
fn contains(p: Pool, address: u32) -> bool
    ensures { result ≡ in_pool? address p }
{
    p.network <= address && u64::from(address) < Prefix::from(p).end()
}

// The index of the pool that contains an address.
pub fn pool_of(image: &[u8], pools: usize, address: u32) -> Option<usize>
    requires { head_size + pool_size * pools ≤ length image.now }
    ensures { PoolOf image.now pools address result }
{
    for k in 0..pools {
        if contains(image::pool_at(image, HEAD + POOL * k), address) {
            return Some(k);
        }
    }
    None
}

// The places of leases that stand together: that of the first, and how many there are.
#[derive(Clone, Copy)]
pub struct LeaseRange {
    pub first: usize,
    pub count: usize,
}

// How many of n leases that ascend lie before a network.
fn places_before(image: &[u8], from: usize, n: usize, network: u32) -> usize
    requires { from + lease_size * n ≤ length image.now }
    ensures upper_bound { result ≤ n }
    ensures equation { ((xs : List Lease) → Records image.now from xs → n ≡ length xs → Ascending xs → Before network xs result) }
{
    if network == 0 {
        return 0;
    }
    image_records::place_after(image, from, n, network - 1)
}

// Which of n leases that ascend have their network in a pool, found by halving: where the first of them stands, and how many.
pub fn leases_in(image: &[u8], from: usize, n: usize, p: Prefix) -> LeaseRange
    requires { (from + lease_size * n ≤ length image.now) × (end p ≤ addresses) }
    ensures count_bound { result.first + result.count ≤ n }
    ensures equation { ((xs : List Lease) → Records image.now from xs → n ≡ length xs → Ascending xs → LeasesIn p xs result) }
{
    let first = places_before(image, from, n, p.network);
    let last = (p.end() - 1) as u32;
    let count = image_records::place_after(image, from + LEASE * first, n - first, last);
    LeaseRange { first, count }
}

// The ground of a call: so many pools from a place on, and so many leases from a place on. Without option 118 it is all of both;
// with it one pool, and the leases in that pool.
#[derive(Clone, Copy)]
pub struct Ground {
    pub pool: usize,
    pub pools: usize,
    pub first: usize,
    pub leases: usize,
}

// The ground of a call that is admitted and carries the option, with this address, or does not; none, where no pool contains the
// address.
pub fn ground_of(image: &[u8], summary: ImageSummary, address: Option<u32>) -> Option<Ground>
    requires { OfAdmitted image.now summary }
    ensures bounds { IfSome result (λ g. (g.pool + g.pools ≤ summary.pools) × (g.first + g.leases ≤ summary.leases)) }
    ensures equation { ((h : Lent) (time : ℕ) (c : Call) (s : List ℕ) → h.image ≡ image.now → Admitted true h time c.client summary
        → c.selection ≡ carried_if (is_some address) s → IfSome address (λ n. n ≡ four s 2) → GroundOf h c summary result) }
{
    let Some(address) = address else {
        return Some(Ground {
            pool: 0,
            pools: summary.pools,
            first: 0,
            leases: summary.leases,
        });
    };
    let pool = pool_of(image, summary.pools, address)?;
    let p = Prefix::from(image::pool_at(image, HEAD + POOL * pool));
    let range = leases_in(image, HEAD + POOL * summary.pools, summary.leases, p);
    Some(Ground {
        pool,
        pools: 1,
        first: range.first,
        leases: range.count,
    })
}

// Puts option 118, unaltered, after the reply of a call that is accepted, if it carries one that is enabled. A refusal and its reply
// stay.
pub fn return_selection(
    answer: Result<Accepted, Refusal>,
    selected: bool,
    selection: &[u8],
    reply: &mut [u8],
) -> Result<Accepted, Refusal>
    requires { MayReturn (answer_of answer) selected selection.now reply.old }
    ensures { ((s : Lent) → outcome (answer_of result) s reply.new
        ≡ returning (carried_if selected selection.now) (outcome (answer_of answer) s reply.old)) }
{
    let accepted = answer?;
    if !selected {
        return answer;
    }
    let bytes = accepted.bytes as usize;
    reply[bytes..bytes + SELECTION].copy_from_slice(selection);
    Ok(Accepted {
        bytes: (bytes + SELECTION) as u32,
        count: accepted.count,
    })
}
