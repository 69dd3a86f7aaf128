// Records in a lent buffer: writing one, and leases that stand as records one after another.
#![tactic(auto)]

ghost use Rattle.std.specs.Prelude.{◌≡◌, List, ◌∷◌, ◌++◌, ◌+◌, ◌-◌, ◌*◌, ◌≤◌, ◌<◌, length, take, drop, replicate, leb};
ghost use Rattle.lists.specs.Lists.{filter, concat_map};
ghost use Rattle.lists.specs.Put.{put};
ghost use Rattle.table.specs.declared.Lease.{Lease};
ghost use Rattle.table.specs.Table.{present, insert};
ghost use Rattle.image.specs.Image.{le32, head_size, pool_size, full_image, head_record, pool_record, lease_record, lease_size, state_byte, flags_byte};
ghost use Rattle.image.specs.Reading.{lease_in};
ghost use Rattle.image_records.specs.Records.{Records, Ascending, ExpiredIn};
ghost use Rattle.image_records.specs.Inner.{Closed};

use image::{FULL_IMAGE, Head, LEASE};
use table::{Lease, Pool};

// WRITING RECORDS

pub fn put32(out: &mut [u8], at: usize, n: u32)
    requires { at + 4 ≤ length out.old }
    ensures { out.new ≡ put out.old at (le32 n) }
{
    octets::put_chunk(out, at, n.to_le_bytes());
}

pub fn state_byte(leased: bool) -> u8
    ensures { result ≡ state_byte leased }
{
    1 + u8::from(leased)
}

pub fn flags_byte(h: bool, d: bool) -> u8
    ensures { result ≡ flags_byte h d }
{
    u8::from(h) + 2 * u8::from(d)
}

pub fn put_head(out: &mut [u8], head: Head)
    requires { head_size ≤ length out.old }
    ensures { out.new ≡ put out.old 0 (head_record head) }
{
    put32(out, 0, image::HEAD_START);
    put32(out, image::TERM, head.term);
    out[image::DEFAULT_LENGTH] = head.default_length;
    put32(out, image::LAST, head.last);
}

pub fn put_pool(out: &mut [u8], at: usize, p: Pool)
    requires { at + pool_size ≤ length out.old }
    ensures { out.new ≡ put out.old at (pool_record p) }
{
    put32(out, at, image::POOL_START);
    put32(out, at + image::NETWORK, p.network);
    out[at + image::LENGTH] = p.length;
}

pub fn put_lease(out: &mut [u8], at: usize, x: Lease)
    requires { at + lease_size ≤ length out.old }
    ensures { out.new ≡ put out.old at (lease_record x) }
{
    put32(out, at, image::LEASE_START);
    put32(out, at + image::NETWORK, x.network);
    out[at + image::LENGTH] = x.length;
    out[at + image::STATE] = state_byte(x.leased);
    out[at + image::FLAGS] = flags_byte(x.h, x.d);
    put32(out, at + image::CLIENT, x.client);
    put32(out, at + image::EXPIRES, x.expires);
    let name = x.name;
    out[at + image::NAME_LENGTH] = names::length(name);
    names::put_name(out, at + image::NAME, name);
}

// Zeros from `from` up to `to`.
pub fn clear(image: &mut [u8], from: usize, to: usize)
    requires { to ≤ length image.old }
    ensures { image.new ≡ put image.old from (replicate (to - from) 0) }
{
    if from < to {
        image[from..to].fill(0);
    }
}

// Bytes of an image to the front of a buffer; how many. By way of an array that overlaps with neither, which tells the compiler that
// this is one move: the array itself is never laid out.
pub fn copy(from: &[u8], to: &mut [u8]) -> usize
    requires { (length from.now ≤ full_image) × (length from.now ≤ length to.old) }
    ensures value { result ≡ length from.now }
    ensures to_after { to.new ≡ from.now ++ drop (length from.now) to.old }
{
    let mut array = [0u8; FULL_IMAGE];
    let n = octets::copy(from, &mut array);
    octets::copy(&array[..n], to)
}

// LEASES IN PLACE

// The lease whose record begins here.
pub fn lease_at(image: &[u8], at: usize) -> Lease
    requires { at + lease_size ≤ length image.now }
    ensures { result ≡ lease_in (drop at image.now) }
{
    Lease {
        network: image::network_at(image, at),
        length: image::length_at(image, at),
        client: image::client_at(image, at),
        leased: image::leased_at(image, at),
        h: image::h_at(image, at),
        d: image::d_at(image, at),
        expires: image::expires_at(image, at),
        name: image::name_at(image, at),
    }
}

// REMOVING

// Of the leases from `first` up to `last` those present, each moved down to the one before; the place after them. Each record
// is moved, and the next one over it if it has expired: so there is no branch that the processor cannot foresee.
fn close_up(image: &mut [u8], from: usize, first: usize, last: usize, time: u32) -> usize
    requires { (first ≤ last) × (from + lease_size * last ≤ length image.old) }
    ensures upper_bound { (result ≤ last) × (drop (from + lease_size * last) image.new ≡ drop (from + lease_size * last) image.old) }
    ensures closed { Closed image.old from first time image.new result last }
{
    let mut kept = first;
    for i in first..last {
        let at = from + LEASE * i;
        let expires = image::expires_at(image, at);
        let record = octets::chunk_at::<LEASE>(image, at);
        octets::put_chunk(image, from + LEASE * kept, record);
        kept += usize::from(time < expires);
    }
    kept
}

// Removes the leases that have expired, all of which stand from the place `first` up to `last`: each later one is moved down in
// place, with zeros up to where the n ended; how many are left.
pub fn remove_expired(
    image: &mut [u8],
    from: usize,
    n: usize,
    first: usize,
    last: usize,
    time: u32,
) -> usize
    requires { (first ≤ last) × (last ≤ n) × (from + lease_size * n ≤ length image.old) }
    ensures upper_bound { result ≤ n }
    ensures value { (xs : List Lease) → Records image.old from xs → n ≡ length xs → ExpiredIn time first last xs
        → (result ≡ length (present time xs)) × (image.new ≡ put image.old from (concat_map lease_record (present time xs) ++ replicate (lease_size * (n - result)) 0)) }
{
    let kept = close_up(image, from, first, last, time);
    octets::shift::<FULL_IMAGE>(
        image,
        from + LEASE * last,
        LEASE * (n - last),
        from + LEASE * kept,
    );
    let left = kept + (n - last);
    clear(image, from + LEASE * left, from + LEASE * n);
    left
}

// FINDING AND INSERTING

// How many of n leases that ascend have a network up to this one: the place after them, found by halving.
pub fn place_after(image: &[u8], from: usize, n: usize, network: u32) -> usize
    requires { from + lease_size * n ≤ length image.now }
    ensures upper_bound { result ≤ n }
    ensures value { (xs : List Lease) → Records image.now from xs → n ≡ length xs → Ascending xs
        → result ≡ length (filter (λ x. leb x.network network) xs) }
{
    let (records, _) = image[from..from + LEASE * n].as_chunks::<LEASE>();
    records.partition_point(|record| image::network_at(record, 0) <= network)
}

// A lease among n that ascend: those after it moved up by `room` records, its own right before them; how many stand before it.
// The records between stay for leases that belong there. With room 1 this is an insertion.
pub fn insert_above(image: &mut [u8], from: usize, n: usize, room: usize, x: Lease) -> usize
    requires { (1 ≤ room) × (from + lease_size * (n + room) ≤ length image.old) }
    ensures upper_bound { result ≤ n }
    ensures xs_value { (xs : List Lease) → Records image.old from xs → n ≡ length xs → Ascending xs
        → (insert x xs ≡ take result xs ++ (x ∷ drop result xs)) × (image.new ≡ put image.old (from + lease_size * (result + room - 1)) (concat_map lease_record (x ∷ drop result xs))) }
{
    let place = place_after(image, from, n, x.network);
    octets::shift::<FULL_IMAGE>(
        image,
        from + LEASE * place,
        LEASE * (n - place),
        from + LEASE * (place + room),
    );
    put_lease(image, from + LEASE * (place + room - 1), x);
    place
}
