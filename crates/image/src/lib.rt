// The image of a lease table (document 01: the saved book) in its two forms: how long its records are, and their fields.
#![tactic(auto)]

ghost use Rattle.std.specs.Prelude.{◌≡◌, ◌+◌, ◌≤◌, ◌<◌, length, drop, get_or};
ghost use Rattle.lists.specs.Lists.{and};
ghost use Rattle.image.specs.Fields.{number32};
ghost use Rattle.image.specs.Image.{form_numbered, head_size, head_kind, pool_size, lease_size, lease_size_in, lease_kind};
ghost use Rattle.image.specs.Reading.{start_of, name_length_at, head_tests_in, head_in, form_of, pool_in, lease_in};

use names::Name;
use table::{LEASES, POOLS, Pool};

// How many bytes a head, the record of a pool and the record of a lease have.
pub const HEAD: usize = 13;

pub const POOL: usize = 9;

pub const LEASE: usize = 44;

// The record of a lease in the first form, which has no name.
pub const FIRST_LEASE: usize = 19;

// "Full books are 19,541 bytes in the first form and 45,141 in the second."
pub const FULL_IMAGE: usize = HEAD + POOL * POOLS + LEASE * LEASES;

// The first four bytes of each record as a number: its length, which counts what follows it, and its kind.
pub const HEAD_START: u32 = (HEAD as u32 - 2) + 5 * 65536;

pub const FIRST_HEAD_START: u32 = (HEAD as u32 - 2) + 65536;

pub const POOL_START: u32 = (POOL as u32 - 2) + 2 * 65536;

pub const LEASE_START: u32 = (LEASE as u32 - 2) + 4 * 65536;

pub const FIRST_LEASE_START: u32 = (FIRST_LEASE as u32 - 2) + 3 * 65536;

// Where the fields of a head stand.
pub const TERM: usize = 4;

pub const DEFAULT_LENGTH: usize = 8;

pub const LAST: usize = 9;

// Where the fields of a lease stand in its record. A pool has the first two at the same places.
pub const NETWORK: usize = 4;

pub const LENGTH: usize = 8;

pub const STATE: usize = 9;

pub const FLAGS: usize = 10;

pub const CLIENT: usize = 11;

pub const EXPIRES: usize = 15;

pub const NAME_LENGTH: usize = 19;

pub const NAME: usize = 20;

// The two saved forms. The calls work on the second; the first, which has no names, is loaded and saved only.
#[derive(Clone, Copy)]
pub enum Form {
    First,
    Second,
}

// The form with a number: 1 is the first, and every other number the second.
impl From<u32> for Form {
    ghost from_gives = { λ n form. form ≡ form_numbered n };

    fn from(n: u32) -> Form {
        if n == 1 { Form::First } else { Form::Second }
    }
}

// The fields of a table's head.
#[derive(Clone, Copy)]
pub struct Head {
    pub term: u32,
    pub default_length: u8,
    pub last: u32,
}

// NUMBERS

// The number that four bytes spell, low byte first: one load when compiled.
pub fn read32(s: &[u8], at: usize) -> u32
    requires { at + 4 ≤ length s.now }
    ensures { result ≡ number32 s.now at }
{
    u32::from_le_bytes(octets::chunk_at(s, at))
}

// WHAT THE FORMS DIFFER IN
// Stays: one function for each constant is no plainer as one: each is one `match`, with constants of its own.

pub fn head_start(form: Form) -> u32
    ensures { result ≡ start_of head_size (head_kind form) }
{
    match form {
        Form::First => FIRST_HEAD_START,
        Form::Second => HEAD_START,
    }
}

pub fn lease_size(form: Form) -> usize
    ensures { result ≡ lease_size_in form }
{
    match form {
        Form::First => FIRST_LEASE,
        Form::Second => LEASE,
    }
}

pub fn lease_start(form: Form) -> u32
    ensures { result ≡ start_of (lease_size_in form) (lease_kind form) }
{
    match form {
        Form::First => FIRST_LEASE_START,
        Form::Second => LEASE_START,
    }
}

// THE HEAD

// Whether the bytes begin with the record of a head of this form.
pub fn head_begins(form: Form, s: &[u8]) -> bool
    ensures { result ≡ and (head_tests_in form s.now) }
{
    s.len() >= HEAD && read32(s, 0) == head_start(form)
}

// The form of saved bytes.
pub fn form_of(s: &[u8]) -> Form
    ensures { result ≡ form_of s.now }
{
    if head_begins(Form::First, s) {
        Form::First
    } else {
        Form::Second
    }
}

pub fn head_in(s: &[u8]) -> Head
    requires { head_size ≤ length s.now }
    ensures { result ≡ head_in s.now }
{
    Head {
        term: read32(s, TERM),
        default_length: s[DEFAULT_LENGTH],
        last: read32(s, LAST),
    }
}

// POOLS AND LEASES, field by field: each reads what it needs of the record at a place.

pub fn pool_at(image: &[u8], at: usize) -> Pool
    requires { at + pool_size ≤ length image.now }
    ensures { result ≡ pool_in (drop at image.now) }
{
    Pool {
        network: read32(image, at + NETWORK),
        length: image[at + LENGTH],
    }
}

pub fn network_at(image: &[u8], at: usize) -> u32
    requires { at + lease_size ≤ length image.now }
    ensures { result ≡ (lease_in (drop at image.now)).network }
{
    read32(image, at + NETWORK)
}

// Stays: `length_at` and `name_length_at` are one byte each, at a place of their own.
pub fn length_at(image: &[u8], at: usize) -> u8
    requires { at + lease_size ≤ length image.now }
    ensures { result ≡ (lease_in (drop at image.now)).length }
{
    image[at + LENGTH]
}

pub fn leased_at(image: &[u8], at: usize) -> bool
    requires { at + lease_size ≤ length image.now }
    ensures { result ≡ (lease_in (drop at image.now)).leased }
{
    image[at + STATE] == 2
}

pub fn h_at(image: &[u8], at: usize) -> bool
    requires { at + lease_size ≤ length image.now }
    ensures { result ≡ (lease_in (drop at image.now)).h }
{
    image[at + FLAGS] % 2 == 1
}

pub fn d_at(image: &[u8], at: usize) -> bool
    requires { at + lease_size ≤ length image.now }
    ensures { result ≡ (lease_in (drop at image.now)).d }
{
    image[at + FLAGS] / 2 % 2 == 1
}

pub fn client_at(image: &[u8], at: usize) -> u32
    requires { at + lease_size ≤ length image.now }
    ensures { result ≡ (lease_in (drop at image.now)).client }
{
    read32(image, at + CLIENT)
}

pub fn expires_at(image: &[u8], at: usize) -> u32
    requires { at + lease_size ≤ length image.now }
    ensures { result ≡ (lease_in (drop at image.now)).expires }
{
    read32(image, at + EXPIRES)
}

// How many octets the name has: as the record says, and the check has seen that it is so.
pub fn name_length_at(image: &[u8], at: usize) -> u8
    requires { at + lease_size ≤ length image.now }
    ensures { result ≡ get_or (drop at image.now) name_length_at 0 }
{
    image[at + NAME_LENGTH]
}

pub fn name_at(image: &[u8], at: usize) -> Name
    requires { at + lease_size ≤ length image.now }
    ensures { result ≡ (lease_in (drop at image.now)).name }
{
    names::name_at(image, at + NAME)
}
