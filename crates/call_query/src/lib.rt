// Queries on an open book: whether it is sound, its head, a pool or a lease by its index, and how many whole free blocks of a
// length it has. Each checks the book and reads what it is asked for where it stands.
#![tactic(auto)]

ghost use Rattle.std.specs.Prelude.{◌≡◌, []};
ghost use Rattle.image.specs.Image.{bit};
ghost use Rattle.ledger.specs.Answers.{answer_of};
ghost use Rattle.call_spec.specs.Books.{book_of, lent_in, whole_book};
ghost use Rattle.call_query.specs.Queries.{
  check_image,
  head_image,
  pool_answer,
  pool_image,
  lease_answer,
  lease_image,
};

use counts::Counts;
use image::{HEAD, LEASE, POOL};
use ledger::{Accepted, Refusal};
use table::{Lease, Pool};

// The head of the table, and how many pools and leases it has. Of a refusal all but the number is 0, here and below.
// Stays: the C interface reads a number and the values beside it, in these three structs.
#[repr(C)]
#[derive(Clone, Copy)]
pub struct HeadAnswer {
    pub number: u32,
    pub term: u32,
    pub default_length: u32,
    pub last_time: u32,
    pub pools: u32,
    pub leases: u32,
}

#[repr(C)]
#[derive(Clone, Copy)]
pub struct PoolAnswer {
    pub number: u32,
    pub network: u32,
    pub length: u32,
}

// The state is 1 of a lease that is held and 2 of one that is leased; h and d are 0 or 1.
#[repr(C)]
#[derive(Drop)]
pub struct LeaseAnswer {
    pub number: u32,
    pub network: u32,
    pub length: u32,
    pub client: u32,
    pub state: u32,
    pub h: u32,
    pub d: u32,
    pub expires: u32,
    pub name_bytes: u32,
    pub name: [u8; names::LONGEST],
}

// No query looks at which leases have expired, so the time of the summary is 0, here and below.
pub fn check(image: &[u8], image_bytes: usize, counts: &Counts) -> Result<Accepted, Refusal>
    ensures { answer_of result ≡ check_image (lent_in (book_of image.now image_bytes [] counts.now)) }
{
    call_rows::summary_in(image, image_bytes, counts, 0).ok_or(Refusal::NotSound)?;
    Ok(Accepted { bytes: 0, count: 0 })
}

// Where there is no table, all else is 0.
pub fn head(image: &[u8], image_bytes: usize, counts: &Counts) -> HeadAnswer
    ensures { result ≡ head_image (lent_in (book_of image.now image_bytes [] counts.now)) }
{
    let Some(summary) = call_rows::summary_in(image, image_bytes, counts, 0) else {
        return HeadAnswer {
            number: 5,
            term: 0,
            default_length: 0,
            last_time: 0,
            pools: 0,
            leases: 0,
        };
    };
    HeadAnswer {
        number: 0,
        term: summary.term,
        default_length: u32::from(summary.default_length),
        last_time: summary.last,
        pools: summary.pools as u32,
        leases: summary.leases as u32,
    }
}

// POOLS

fn pool_answer(number: u32, p: Pool) -> PoolAnswer
    ensures { result ≡ pool_answer number p }
{
    PoolAnswer {
        number,
        network: p.network,
        length: u32::from(p.length),
    }
}

pub fn pool(image: &[u8], image_bytes: usize, counts: &Counts, index: usize) -> PoolAnswer
    ensures { result ≡ pool_image (lent_in (book_of image.now image_bytes [] counts.now)) index }
{
    let Some(summary) = call_rows::summary_in(image, image_bytes, counts, 0) else {
        return pool_answer(5, table::no_pool());
    };
    if summary.pools <= index {
        return pool_answer(11, table::no_pool());
    }
    pool_answer(0, image::pool_at(image, HEAD + POOL * index))
}

// LEASES

// A flag as a number.
fn bit(b: bool) -> u32
    ensures { result ≡ bit b }
{
    u32::from(b)
}

fn lease_answer(number: u32, state: u8, x: Lease) -> LeaseAnswer
    ensures { result ≡ lease_answer number state x }
{
    LeaseAnswer {
        number,
        network: x.network,
        length: u32::from(x.length),
        client: x.client,
        state: u32::from(state),
        h: bit(x.h),
        d: bit(x.d),
        expires: x.expires,
        name_bytes: names::length(x.name) as u32,
        name: names::octets(x.name),
    }
}

pub fn lease(image: &[u8], image_bytes: usize, counts: &Counts, index: usize) -> LeaseAnswer
    ensures { result ≡ lease_image (lent_in (book_of image.now image_bytes [] counts.now)) index }
{
    let Some(summary) = call_rows::summary_in(image, image_bytes, counts, 0) else {
        return lease_answer(5, 0, table::no_lease());
    };
    if summary.leases <= index {
        return lease_answer(11, 0, table::no_lease());
    }
    let x = image_records::lease_at(image, HEAD + POOL * summary.pools + LEASE * index);
    lease_answer(0, image_records::state_byte(x.leased), x)
}

// HOW MUCH IS LEFT

// How many whole free blocks of a length there are, as last written; 0 outside 8 to 30.
pub fn whole(
    image: &[u8],
    image_bytes: usize,
    counts: &Counts,
    length: u32,
) -> Result<Accepted, Refusal>
    ensures { answer_of result ≡ whole_book (book_of image.now image_bytes [] counts.now) length }
{
    check(image, image_bytes, counts)?;
    Ok(Accepted {
        bytes: 0,
        count: counts::sum(*counts, length),
    })
}
