// Open as a call: the table that pools, a term, a default length and a start time make, as an image in a lent buffer,
// its figures sheet, and the counts of its whole free blocks.
#![tactic(auto)]

ghost use Rattle.std.specs.Prelude.{◌≡◌, [], ◌+◌, ◌*◌, ◌≤◌, length, map};
ghost use Rattle.lists.specs.Lists.{concat_map};
ghost use Rattle.lists.specs.Put.{put};
ghost use Rattle.table.specs.Table.{pool_slots};
ghost use Rattle.table_open.specs.Keys.{pool_of};
ghost use Rattle.image.specs.Image.{head_size, pool_size, pool_record};
ghost use Rattle.ledger.specs.Answers.{answer_of};
ghost use Rattle.ledger.specs.Ledger.{outcome};
ghost use Rattle.call_spec.specs.Books.{book_of, open_book};

use counts::Counts;
use image::{FULL_IMAGE, HEAD, Head, POOL};
use image_figures::FIGURES;
use ledger::{Accepted, Refusal};
use table::POOLS;

// What the head of a table is opened with.
#[derive(Clone, Copy)]
pub struct Terms {
    pub term: u32,
    pub default_length: u32,
    pub start: u32,
}

// The records of pools, after the head, each from the number that stands for it.
fn put_pools(image: &mut [u8], keys: &[u64])
    requires { (head_size + pool_size * length keys.now ≤ length image.old) × (length keys.now ≤ pool_slots) }
    ensures { image.new ≡ put image.old head_size (concat_map pool_record (map pool_of keys.now)) }
{
    for (i, key) in keys.iter().enumerate() {
        image_records::put_pool(image, HEAD + POOL * i, table_open::pool_of(*key));
    }
}

// The fresh table is empty at every index, so its image is its head and its pools, and every row of its sheet an empty one; zeros follow up to the end
// of a full image. Its pools are written from their numbers: of the table only the head is read, so none of it need stand anywhere.
pub fn open(
    image: &mut [u8],
    image_bytes: &mut usize,
    figures: &mut [u8],
    counts: &mut Counts,
    networks: &[u32],
    lengths: &[u8],
    terms: Terms,
) -> Result<Accepted, Refusal>
    ensures { outcome (answer_of result) (book_of image.new image_bytes.new figures.new counts.new) []
        ≡ open_book (book_of image.old image_bytes.old figures.old counts.old) networks.now lengths.now terms.term terms.default_length terms.start }
{
    let term = terms.term;
    let start = terms.start;
    let length = call_spec::length_of(terms.default_length);
    let mut keys = [0u64; POOLS];
    if !table_open::admits(&mut keys, networks, lengths, term, length, start) {
        return Err(Refusal::BadTerms);
    }
    if image.len() < FULL_IMAGE {
        return Err(Refusal::BufferTooShort);
    }
    if figures.len() != FIGURES {
        return Err(Refusal::BufferTooShort);
    }
    let n = networks.len();
    let pools = &keys[..n];
    let t = table_open::open(pools, term, length, start);
    let head = Head {
        term: t.term,
        default_length: t.default_length,
        last: t.last,
    };
    image_records::put_head(image, head);
    put_pools(image, pools);
    image_records::clear(image, HEAD + POOL * n, FULL_IMAGE);
    image_figures::fill(figures, image, HEAD + POOL * n, 0);
    image_counts::recount(image, n, 0, counts);
    *image_bytes = HEAD + POOL * n;
    Ok(Accepted { bytes: 0, count: 0 })
}
