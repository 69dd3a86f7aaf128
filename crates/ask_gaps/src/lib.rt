// The free space of an image: the gaps of some of its pools and leases, pushed into a lent buffer in one pass over both.
#![tactic(auto)]

ghost use Rattle.std.specs.Prelude.{◌≡◌, List, ℕ, ◌+◌, ◌-◌, ◌*◌, ◌≤◌, ◌<◌, length, drop};
ghost use Rattle.prefix.specs.declared.Prefix.{Prefix};
ghost use Rattle.prefix.specs.Prefixes.{end};
ghost use Rattle.table.specs.declared.Lease.{Lease};
ghost use Rattle.table.specs.Table.{addresses};
ghost use Rattle.image.specs.Image.{head_size, pool_size, lease_size};
ghost use Rattle.image_check.specs.Inner.{nth_pool};
ghost use Rattle.gap_list.specs.Gaps.{gaps_of};
ghost use Rattle.gap_list.specs.Columns.{held_in};
ghost use Rattle.ask_gaps.specs.Ground.{ahead, Ground};
ghost use Rattle.ask_gaps.specs.InnerPass.{Went};

use gap_list::Ends;
use image::{HEAD, LEASE};
use prefix::Prefix;

// How many leases a pass has left behind, and how many gaps it has pushed.
#[derive(Clone, Copy)]
pub struct Pass {
    pub leases: usize,
    pub gaps: usize,
}

// A part of an image's pools and leases: the pools from a place on, so many of them; so many leases, whose records stand from a byte on.
#[derive(Clone, Copy)]
pub struct Span {
    pub pool: usize,
    pub pools: usize,
    pub from: usize,
    pub leases: usize,
}

// The gaps of a pool, between those of the span's leases that are left and present.
fn in_pool(image: &[u8], span: Span, time: u32, pool: Prefix, at: Pass, gaps: &mut [Ends]) -> Pass
    requires { (span.from + lease_size * span.leases ≤ length image.now) × (end pool ≤ addresses) × (at.leases ≤ span.leases) × (at.gaps + span.leases < length gaps.old + at.leases) }
    ensures { Went image.now span.from span.leases time pool.network (end pool) at gaps.old result gaps.new }
{
    let stop = pool.end();
    let mut cursor = u64::from(pool.network);
    let mut n = at.gaps;
    for i in at.leases..span.leases {
        let x = image_records::lease_at(image, span.from + LEASE * i);
        if time < x.expires {
            let first = u64::from(x.network);
            if stop <= first {
                return Pass {
                    leases: i,
                    gaps: gap_list::push(gaps, n, cursor, stop),
                };
            }
            n = gap_list::push(gaps, n, cursor, first);
            cursor = first + prefix::size(x.length);
        }
    }
    Pass {
        leases: span.leases,
        gaps: gap_list::push(gaps, n, cursor, stop),
    }
}

// The gaps that the span's pools and the present ones of its leases leave, in order; how many there are.
pub fn gaps_in(image: &[u8], span: Span, time: u32, gaps: &mut [Ends]) -> usize
    requires { (head_size + pool_size * (span.pool + span.pools) ≤ length image.now) × (span.from + lease_size * span.leases ≤ length image.now)
        × (span.pools + span.leases ≤ length gaps.old) × ((k : ℕ) → k < span.pools → end (nth_pool (drop head_size image.now) (span.pool + k)) ≤ addresses) }
    ensures upper_bound { result ≤ span.pools + span.leases }
    ensures result_after { (ps : List Prefix) (xs : List Lease) → Ground image.now span.pool span.pools span.from span.leases ps xs
        → held_in gaps.new result ≡ gaps_of ps (ahead time 0 xs) }
{
    let mut at = Pass { leases: 0, gaps: 0 };
    for k in 0..span.pools {
        let pool = image_check::pool(&image[HEAD..], span.pool + k);
        at = in_pool(image, span, time, pool, at, gaps);
    }
    at.gaps
}
