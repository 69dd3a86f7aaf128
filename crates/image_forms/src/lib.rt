// The two saved forms: an image of the first widened to the second, and one narrowed to the first, in lent buffers.
#![tactic(auto)]

ghost use Rattle.std.specs.Prelude.{◌≡◌, true, not, List, ◌++◌, ℕ, ◌+◌, ◌*◌, ◌≤◌, length, drop, take};
ghost use Rattle.lists.specs.Lists.{any?};
ghost use Rattle.lists.specs.Put.{put};
ghost use Rattle.names.specs.Names.{unnamed?};
ghost use Rattle.table.specs.declared.Lease.{Lease};
ghost use Rattle.table.specs.declared.LeaseTable.{LeaseTable};
ghost use Rattle.image.specs.declared.Form.TheVariants.{First, Second};
ghost use Rattle.image.specs.Image.{head_size, pool_size, lease_size, lease_size_in, first_lease_size, used_pools, used_leases, image_as, image_of, fits_form};
ghost use Rattle.image_records.specs.Records.{Records};
ghost use Rattle.image_forms.specs.Forms.{lease_as, front_as, Moved};

use image::{FIRST_LEASE, Form, HEAD, LEASE, POOL};

// What the records of both forms have after their first four bytes, the fields from the network to the end, and one byte before
// them: so these are sixteen, which move as one. What the record begins with is written over that byte.
const BODY_AT: usize = image::NETWORK - 1;

const BODY: usize = image::NAME_LENGTH - BODY_AT;

// Whether one of n leases has a name, as the lengths of the names tell.
pub fn any_named(image: &[u8], from: usize, n: usize) -> bool
    requires { from + lease_size * n ≤ length image.now }
    ensures { (xs : List Lease) → Records image.now from xs → n ≡ length xs → result ≡ any? (λ x. not (unnamed? x.name)) xs }
{
    let (records, _) = image[from..from + LEASE * n].as_chunks::<LEASE>();
    records
        .iter()
        .any(|record| image::name_length_at(record, 0) != 0)
}

// LEASES

// The lease whose record begins at `at`, as a record of this form, with no name. Its body moves by the register.
fn put_lease_as(form: Form, s: &[u8], at: usize, out: &mut [u8], place: usize)
    requires { (at + first_lease_size ≤ length s.now) × (place + lease_size_in form ≤ length out.old) }
    ensures { out.new ≡ put out.old place (lease_as form (drop at s.now)) }
{
    let body = octets::chunk_at::<BODY>(s, at + BODY_AT);
    octets::put_chunk(out, place + BODY_AT, body);
    image_records::put32(out, place, image::lease_start(form));
    match form {
        Form::First => {}
        Form::Second => {
            out[place + image::NAME_LENGTH] = 0;
            names::put_name(out, place + image::NAME, names::no_name());
        }
    }
}

// The n leases whose records of one form begin at `at`, as records of another.
fn put_leases_as(from: Form, to: Form, s: &[u8], at: usize, n: usize, out: &mut [u8], place: usize)
    requires { (at + lease_size_in from * n ≤ length s.now) × (place + lease_size_in to * n ≤ length out.old) }
    ensures { Moved from to s.now at n out.old place out.new }
{
    let size = image::lease_size(from);
    let new_size = image::lease_size(to);
    for i in 0..n {
        put_lease_as(to, s, at + size * i, out, place + new_size * i);
    }
}

// THE WHOLE IMAGE

// The head and the pools, n bytes, with the head of this form.
fn put_front(form: Form, s: &[u8], n: usize, out: &mut [u8])
    requires { (head_size ≤ n) × (n ≤ length s.now) × (n ≤ length out.old) }
    ensures { out.new ≡ put out.old 0 (front_as form n s.now) }
{
    octets::copy(&s[..n], out);
    image_records::put32(out, 0, image::head_start(form));
}

// A saved image of the first form, with so many pools and leases, in the second form at the front of a buffer; how long it is there.
pub fn widen(saved: &[u8], pools: usize, leases: usize, image: &mut [u8]) -> usize
    requires { (head_size + pool_size * pools + first_lease_size * leases ≤ length saved.now) × (head_size + pool_size * pools + lease_size * leases ≤ length image.old) }
    ensures value { result ≡ head_size + pool_size * pools + lease_size * leases }
    ensures value_2 { (t : LeaseTable) → image_as First t ≡ saved.now → fits_form First t ≡ true → pools ≡ length (used_pools t) → leases ≡ length (used_leases t)
        → (result ≡ length (image_of t)) × (image.new ≡ image_of t ++ drop (length (image_of t)) image.old) }
{
    let from = HEAD + POOL * pools;
    put_front(Form::Second, saved, from, image);
    put_leases_as(Form::First, Form::Second, saved, from, leases, image, from);
    from + LEASE * leases
}

// The reverse, of an image at the front of a buffer, no lease of which has a name.
// Stays: `widen` and `narrow` are no plainer as one: what they share is `put_leases_as`, and each takes what the other gives.
pub fn narrow(image: &[u8], pools: usize, leases: usize, buffer: &mut [u8]) -> usize
    requires { (head_size + pool_size * pools + lease_size * leases ≤ length image.now) × (head_size + pool_size * pools + first_lease_size * leases ≤ length buffer.old) }
    ensures value { result ≡ head_size + pool_size * pools + first_lease_size * leases }
    ensures value_2 { (t : LeaseTable) (bytes : ℕ) → image_of t ≡ take bytes image.now → fits_form First t ≡ true → pools ≡ length (used_pools t) → leases ≡ length (used_leases t)
        → (result ≡ length (image_as First t)) × (buffer.new ≡ image_as First t ++ drop (length (image_as First t)) buffer.old) }
{
    let from = HEAD + POOL * pools;
    put_front(Form::First, image, from, buffer);
    put_leases_as(Form::Second, Form::First, image, from, leases, buffer, from);
    from + FIRST_LEASE * leases
}
