// Whether bytes are the image of a sound table, in one pass over the bytes: no table is made.
#![tactic(auto)]

ghost use Rattle.std.specs.Prelude.{◌≡◌, ℕ, ◌+◌, ◌*◌, ◌/◌, ◌≤◌, ◌<◌, length, drop};
ghost use Rattle.std.proofs.Math.Option.{some};
ghost use Rattle.image.specs.declared.Head.{Head};
ghost use Rattle.table.specs.Table.{pool_slots};
ghost use Rattle.image.specs.Image.{pool_size, lease_size_in};
ghost use Rattle.image.specs.Reading.{pools_at, name_test, after_head_in, load_in, load_image};
ghost use Rattle.image_check.specs.ImageSummary.{summary_of};
ghost use Rattle.image_check.specs.Inner.{pool_end, pool_count, pool_begins?, nth_pool, state_and_flags?, fit_at, due, Begun};
ghost use Rattle.image_check.specs.InnerPass.{Left, Reached};

use image::{FIRST_LEASE, Form, HEAD, Head, LEASE, POOL};
use prefix::Prefix;
use table::{LEASES, POOLS, Pool};

// The head of the table that bytes are the image of, and how many pools, leases and expired leases it has.
#[derive(Clone, Copy)]
pub struct ImageSummary {
    pub term: u32,
    pub default_length: u8,
    pub last: u32,
    pub pools: usize,
    pub leases: usize,
    pub expired: usize,
}

// POOLS

// The end of a pool that begins at an address or after it and is as a sound table has it.
fn pool_end(p: Pool, from: u64) -> Option<u64>
    ensures { result ≡ pool_end p from }
{
    if u64::from(p.network) < from || !table::pool_ok(p) {
        return None;
    }
    Some(Prefix::from(p).end())
}

// Whether a pool record begins at a place, be it of an unused slot.
fn pool_begins(s: &[u8], at: usize) -> bool
    requires { at ≤ pool_size * pool_slots }
    ensures { result ≡ pool_begins? (drop at s.now) }
{
    at + POOL <= s.len() && image::read32(s, at) == image::POOL_START
}

// How many pools stand at the front of the bytes, if they are as a sound table has them. One that is unused is no pool: it ends them, and
// its test comes last, since a sound image has none.
fn pools_in(s: &[u8]) -> Option<usize>
    ensures { result ≡ pool_count (pools_at s.now).items }
{
    let mut from: u64 = 0;
    for n in 0..POOLS {
        let at = POOL * n;
        if !pool_begins(s, at) {
            return Some(n);
        }
        let p = image::pool_at(s, at);
        let Some(end) = pool_end(p, from) else {
            return table::pool_unused(p).then_some(n);
        };
        from = end;
    }
    Some(POOLS)
}

// The prefix of the k-th pool.
pub fn pool(s: &[u8], k: usize) -> Prefix
    requires { pool_size * k + pool_size ≤ length s.now }
    ensures { result ≡ nth_pool s.now k }
{
    Prefix::from(image::pool_at(s, POOL * k))
}

// LEASES

// Of a lease record that is as a sound table has it, what the pass looks at.
#[derive(Clone, Copy)]
struct Fit {
    network: u32,
    end: u64,
    expires: u32,
}

// Whether state and flags, the second and third byte of a word, are as a lease has them: 1 or 2, and at most 3. One more than the
// state is 2 or 3, so that the tests are of single bits, and compiled they are one mask.
#[tactic(auto, using(crate::proofs::FitLaws::state_and_flags_rules))]
fn state_and_flags(word: u32) -> bool
    ensures { result ≡ state_and_flags? word }
{
    let next = u64::from(word) + 256;
    next / 512 % 128 == 1 && next / 262144 % 64 == 0
}

// Whether the name in a record is as long as its length says.
fn name_fits(form: Form, s: &[u8]) -> bool
    requires { lease_size_in form ≤ length s.now }
    ensures { result ≡ name_test form s.now }
{
    match form {
        Form::First => true,
        Form::Second => s[image::NAME_LENGTH] == names::length(names::name_at(s, image::NAME)),
    }
}

// The lease record at the front of the bytes, if it is as a sound table has it, wherever the lease lies.
fn fit_at(form: Form, s: &[u8], last: u32) -> Option<Fit>
    requires { lease_size_in form ≤ length s.now }
    ensures { result ≡ fit_at form last s.now }
{
    if image::read32(s, 0) != image::lease_start(form) {
        return None;
    }
    let word = image::read32(s, image::LENGTH);
    let p = Prefix::new(image::read32(s, image::NETWORK), (word % 256) as u8).ok()?;
    if !state_and_flags(word) || image::read32(s, image::CLIENT) == 0 {
        return None;
    }
    let expires = image::read32(s, image::EXPIRES);
    if expires <= last || !name_fits(form, s) {
        return None;
    }
    Some(Fit {
        network: p.network,
        end: p.end(),
        expires,
    })
}

// 1 for a lease that has expired.
fn due(expires: u32, time: u32) -> usize
    ensures { result ≡ due expires time }
{
    usize::from(expires <= time)
}

// How far a pass over the leases has come, and how many of those behind it have expired.
#[derive(Clone, Copy)]
struct Pass {
    at: usize,
    expired: usize,
}

// The leases from a place on that lie in a pool, in order. The pass stops at the first record that is not one of them.
fn in_pool(form: Form, s: &[u8], p: Prefix, from: Pass, last: u32, time: u32) -> Pass
    requires { Left form s.now from }
    ensures left { Left form s.now result }
    ensures reached { (x : Head) (n k : ℕ) → Begun x s.now n → x.last ≡ last → k < n → p ≡ nth_pool s.now k
        → Reached form x s.now n time k from → Reached form x s.now n time (k + 1) result }
{
    let size = image::lease_size(form);
    let stop = p.end();
    let mut low = u64::from(p.network);
    let mut pass = from;
    // Stays: a `for` over the records is no plainer: the place moves on by hand besides, since the pass over the next pool begins there.
    while pass.at < s.len() {
        let Some(lease) = fit_at(form, &s[pass.at..], last) else {
            return pass;
        };
        if u64::from(lease.network) < low || stop < lease.end {
            return pass;
        }
        low = lease.end;
        pass.expired += due(lease.expires, time);
        pass.at += size;
    }
    pass
}

// How many leases so many bytes have, each division by a constant.
fn leases_of(form: Form, bytes: usize) -> usize
    ensures { result ≡ bytes / lease_size_in form }
{
    match form {
        Form::First => bytes / FIRST_LEASE,
        Form::Second => bytes / LEASE,
    }
}

// The leases after n pools, and nothing after them. Pools and leases both ascend, so the leases of one pool stand together, before those of the next.
fn leases_in(form: Form, head: Head, s: &[u8], n: usize, time: u32) -> Option<ImageSummary>
    requires { Begun head s.now n }
    ensures { result ≡ summary_of time (after_head_in form (some head) s.now) }
{
    let from = POOL * n;
    let count = leases_of(form, s.len() - from);
    if LEASES < count {
        return None;
    }
    if from + image::lease_size(form) * count != s.len() {
        return None;
    }
    let mut pass = Pass {
        at: from,
        expired: 0,
    };
    for k in 0..n {
        // No lease is left for the pools from here on.
        if pass.at == s.len() {
            break;
        }
        pass = in_pool(form, s, pool(s, k), pass, head.last, time);
    }
    if pass.at != s.len() {
        return None;
    }
    Some(ImageSummary {
        term: head.term,
        default_length: head.default_length,
        last: head.last,
        pools: n,
        leases: count,
        expired: pass.expired,
    })
}

// THE PASS

// What the bytes are the image of in a form, at a time; nothing where they are no image of a sound table.
pub fn check_in(form: Form, image: &[u8], time: u32) -> Option<ImageSummary>
    ensures { result ≡ summary_of time (load_in form image.now) }
{
    if !image::head_begins(form, image) {
        return None;
    }
    let head = image::head_in(image);
    if !table::head_ok(head.term, head.default_length, head.last) {
        return None;
    }
    let n = pools_in(&image[HEAD..])?;
    if n == 0 {
        return None;
    }
    leases_in(form, head, &image[HEAD..], n, time)
}

// In the form that the calls work on.
pub fn check(image: &[u8], time: u32) -> Option<ImageSummary>
    ensures { result ≡ summary_of time (load_image image.now) }
{
    check_in(Form::Second, image, time)
}
