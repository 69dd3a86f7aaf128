// A client that asks again: the leases that it holds already, found in one pass over the records of an image, each for the
// first request that it is for, and held anew in place.
#![tactic(auto)]

ghost use Rattle.std.specs.Prelude.{◌≡◌, Option, true, cond, List, ◌+◌, ◌*◌, ◌≤◌, ◌<◌, eqb, length as length_of, take, get_or, replicate};
ghost use Rattle.lists.specs.Lists.{All, concat_map, cat_maybes};
ghost use Rattle.lists.specs.Put.{put};
ghost use Rattle.table.specs.declared.{Lease.Lease, LeaseTable.LeaseTable};
ghost use Rattle.table.specs.Table.{latest, present};
ghost use Rattle.option.specs.Values.{most_requests};
ghost use Rattle.option.specs.Contents.{Request};
ghost use Rattle.image.specs.Image.{le32, lease_size, lease_record};
ghost use Rattle.image.specs.Reading.{expires_at};
ghost use Rattle.image_records.specs.Records.{Records, Ascending};
ghost use Rattle.ledger.specs.Ledger.{again, held_again};
ghost use Rattle.ask_again.specs.Places.{no_place, Within, InBuffer, given_in, others_in, Asks};
ghost use Rattle.ask_again.specs.InnerGiving.{held_at?, NextHeld, OthersAt};
ghost use Rattle.ask_again.specs.InnerChains.{keys, no_request, key_of, key_in, Heads, Linked, Gave};

use image::{EXPIRES, LEASE};
use names::Name;
use option::MOST_REQUESTS;

// Who asks, when, and under which name.
#[derive(Clone, Copy)]
pub struct Asker {
    pub client: u32,
    pub time: u32,
    pub name: Name,
}

// The place of a request that gets no lease again.
pub const NONE: u16 = 65535;

// How many keys there are: one for each length and h.
const KEYS: usize = 512;

// No request.
const NO_REQUEST: u8 = 255;

// "held until now + 120"
pub const HOLD: u32 = 120;

// "An ask's length is the prefix asked for, or the default length for 0."
pub fn ask_length(length: u8, default_length: u8) -> u8
    ensures { result ≡ cond (eqb length 0) default_length length }
{
    if length == 0 {
        return default_length;
    }
    length
}

// FINDING

// Whether the record here is that of a lease which the asker holds (and has not leased), and which is present. Most leases are
// another client's, so that is looked at first.
fn held_at(image: &[u8], at: usize, asker: Asker) -> bool
    requires { at + lease_size ≤ length_of image.now }
    ensures { result ≡ held_at? image.now at asker.client asker.time }
{
    if image::client_at(image, at) != asker.client {
        return false;
    }
    if image::leased_at(image, at) {
        return false;
    }
    asker.time < image::expires_at(image, at)
}

// Whether four records, from the place `at` on, are those of other clients' leases.
fn others_at(image: &[u8], at: usize, client: u32) -> bool
    requires { at + 4 * lease_size ≤ length_of image.now }
    ensures { result ≡ true → OthersAt image.now at client }
{
    if image::client_at(image, at) == client {
        return false;
    }
    if image::client_at(image, at + LEASE) == client {
        return false;
    }
    if image::client_at(image, at + 2 * LEASE) == client {
        return false;
    }
    image::client_at(image, at + 3 * LEASE) != client
}

// The next of n records, from the i-th on, whose lease the asker holds.
fn next_held(image: &[u8], from: usize, i: usize, n: usize, asker: Asker) -> Option<usize>
    requires { (from + lease_size * n ≤ length_of image.now) × (i ≤ n) }
    ensures { NextHeld image.now from asker.client asker.time i n result }
{
    let mut k: usize = i;
    // Stays: four records in a turn while they are other clients', as most are; with one in a turn 1,024 took an eighth longer.
    while k + 4 <= n {
        if !others_at(image, from + LEASE * k, asker.client) {
            break;
        }
        k += 4;
    }
    for m in k..n {
        if held_at(image, from + LEASE * m, asker) {
            return Some(m);
        }
    }
    None
}

// The key of a length and h.
fn key_of(length: u8, h: bool) -> usize
    ensures { (result ≡ key_of length h) × (result < keys) }
{
    let twice = 2 * (length as usize);
    if h {
        return twice + 1;
    }
    twice
}

// Requests with the same key are chained in their order: `first` has the first of each key, `next` has for each request the one
// after it. So a lease finds the request that it is for at once.
fn chain(
    first: &mut [u8; KEYS],
    next: &mut [u8; MOST_REQUESTS],
    ask_lengths: &[u8],
    ask_h: &[u8],
    default_length: u8,
)
    requires { (first.old ≡ replicate keys no_request) × (length_of next.old ≡ most_requests) × (length_of ask_lengths.now ≤ most_requests) × (length_of ask_lengths.now ≤ length_of ask_h.now) }
    ensures heads { Heads (key_in ask_lengths.now ask_h.now default_length) (length_of ask_lengths.now) 0 first.new }
    ensures linked { Linked (key_in ask_lengths.now ask_h.now default_length) (length_of ask_lengths.now) 0 next.new }
{
    for j in (0..ask_lengths.len()).rev() {
        let key = key_of(ask_length(ask_lengths[j], default_length), ask_h[j] == 1);
        next[j] = first[key];
        first[key] = j as u8;
    }
}

// The place of a lease with this key given to the first request that waits for it; how many that are.
fn give_place(
    places: &mut [u16],
    first: &mut [u8; KEYS],
    next: &[u8; MOST_REQUESTS],
    requests: usize,
    key: usize,
    place: u16,
) -> usize
    requires { (requests ≤ length_of places.old) × (requests ≤ most_requests) × (key < keys) }
    ensures { Gave (get_or first.old key 0) requests key place places.old first.old next.now places.new first.new result }
{
    let j = usize::from(first[key]);
    if requests <= j {
        return 0;
    }
    places[j] = place;
    first[key] = next[j];
    1
}

// The place of the lease that each request gets again, or NONE: in one pass over n records, each that the asker holds goes to
// the first request that waits for it. Answers how many get one. Most clients hold none: then no request is looked at.
pub fn find_held(
    image: &[u8],
    from: usize,
    n: usize,
    asker: Asker,
    default_length: u8,
    ask_lengths: &[u8],
    ask_h: &[u8],
    places: &mut [u16],
) -> usize
    requires { (from + lease_size * n ≤ length_of image.now) × (n ≤ no_place) × (length_of ask_lengths.now ≤ length_of ask_h.now) × (length_of ask_lengths.now ≤ length_of places.old) × (length_of ask_lengths.now ≤ most_requests) }
    ensures value { result ≡ others_in no_place places.new (length_of ask_lengths.now) }
    ensures all { All (Within n) (take (length_of ask_lengths.now) places.new) }
    ensures places_after { (t : LeaseTable) (us : List Lease) (rs : List Request) → Records image.now from us → n ≡ length_of us
        → Asks t rs default_length ask_lengths.now ask_h.now
        → given_in us (take (length_of ask_lengths.now) places.new) ≡ again t asker.client (present asker.time us) rs }
{
    places.fill(NONE);
    let mut held = next_held(image, from, 0, n, asker);
    if held.is_none() {
        return 0;
    }
    let requests = ask_lengths.len();
    let mut first = [NO_REQUEST; KEYS];
    let mut next = [0u8; MOST_REQUESTS];
    chain(&mut first, &mut next, ask_lengths, ask_h, default_length);
    let mut given: usize = 0;
    while let Some(i) = held {
        let at = from + LEASE * i;
        let key = key_of(image::length_at(image, at), image::h_at(image, at));
        given += give_place(places, &mut first, &next, requests, key, i as u16);
        if given == requests {
            return given;
        }
        held = next_held(image, from, i + 1, n, asker);
    }
    given
}

// HOLDING ANEW

// The end of the lease at a place, if it is one.
fn hold_one(image: &mut [u8], from: usize, place: u16, expires: u32)
    requires { InBuffer from (length_of image.old) place }
    ensures { image.new ≡ cond (eqb place no_place) image.old (put image.old (from + lease_size * place + expires_at) (le32 expires)) }
{
    if place == NONE {
        return;
    }
    image_records::put32(image, from + LEASE * usize::from(place) + EXPIRES, expires);
}

// The leases at these places held until 120 seconds after the time, whatever their end was; of a record only the end is written.
pub fn hold_again(image: &mut [u8], from: usize, places: &[u16], time: u32)
    requires { All (InBuffer from (length_of image.old)) places.now × (time ≤ latest) }
    ensures { (us : List Lease) → Records image.old from us → Ascending us → All (Within (length_of us)) places.now
        → image.new ≡ put image.old from (concat_map lease_record (held_again time (cat_maybes (given_in us places.now)) us)) }
{
    let expires = time + HOLD;
    for place in places {
        hold_one(image, from, *place, expires);
    }
}
