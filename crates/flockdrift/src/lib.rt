// The calls as functions for C and Rust: include/flockdrift.h documents them. Each is one equation with the ledger on the
// book that it is lent: image, figures sheet and counts. A slice is a pointer and a length; nothing is allocated and nothing is kept
// between two calls.
#![tactic(auto)]

ghost use Rattle.std.specs.Prelude.{◌≡◌, not, [], eqb};
ghost use Rattle.image.specs.Image.{form_numbered};
ghost use Rattle.ledger.specs.Ledger.{call, call_with, outcome};
ghost use Rattle.call_spec.specs.ImageCalls.{carried_if};
ghost use Rattle.call_spec.specs.Books.{
  book_of,
  lent_in,
  open_book,
  load_book,
  save_book,
  ask_book,
  take_book,
  list_book,
  release_book,
  mark_book,
  whole_book,
};
ghost use Rattle.call_query.specs.Queries.{check_image, head_image, pool_image, lease_image};
ghost use Rattle.call_option.specs.Options.{selection_in, selection_into, option_check};
ghost use Rattle.call_sheet.specs.SheetImage.{sheet_image};

use call_open::Terms;
use call_option::SelectionAnswer;
use call_query::{HeadAnswer, LeaseAnswer, PoolAnswer};
use call_spec::Message;
use counts::Counts;
use image::Form;
use ledger::Answer;

// THE CALLS
// Stays: each export hands on to one call, as the C interface needs it.

#[unsafe(no_mangle)]
pub extern "C" fn flockdrift_open(
    image: &mut [u8],
    image_bytes: &mut usize,
    figures: &mut [u8],
    counts: &mut Counts,
    networks: &[u32],
    lengths: &[u8],
    term: u32,
    default_length: u32,
    start: u32,
) -> Answer
    ensures { outcome result (book_of image.new image_bytes.new figures.new counts.new) []
        ≡ open_book (book_of image.old image_bytes.old figures.old counts.old) networks.now lengths.now term default_length start }
{
    let terms = Terms {
        term,
        default_length,
        start,
    };
    call_open::open(
        image,
        image_bytes,
        figures,
        counts,
        networks,
        lengths,
        terms,
    )
    .into()
}

#[unsafe(no_mangle)]
pub extern "C" fn flockdrift_load(
    image: &mut [u8],
    image_bytes: &mut usize,
    figures: &mut [u8],
    counts: &mut Counts,
    saved: &[u8],
) -> Answer
    ensures { outcome result (book_of image.new image_bytes.new figures.new counts.new) []
        ≡ load_book (book_of image.old image_bytes.old figures.old counts.old) saved.now }
{
    call_load::load(image, image_bytes, figures, counts, saved).into()
}

// Save changes nothing, so the image is only read; and so with list. Neither has the figures sheet.
#[unsafe(no_mangle)]
pub extern "C" fn flockdrift_save(
    image: &[u8],
    image_bytes: usize,
    counts: &Counts,
    form: u32,
    older: u32,
    buffer: &mut [u8],
) -> Answer
    ensures { outcome result (book_of image.now image_bytes [] counts.now) buffer.new
        ≡ save_book (book_of image.now image_bytes [] counts.now) (form_numbered form) (not (eqb older 0)) buffer.old }
{
    call_save::save(
        image,
        image_bytes,
        counts,
        Form::from(form),
        older != 0,
        buffer,
    )
    .into()
}

#[unsafe(no_mangle)]
pub extern "C" fn flockdrift_ask(
    image: &mut [u8],
    image_bytes: &mut usize,
    figures: &mut [u8],
    counts: &mut Counts,
    client: u32,
    time: u32,
    option: &[u8],
    selected: u32,
    selection: &[u8],
    reply: &mut [u8],
) -> Answer
    ensures { outcome result (book_of image.new image_bytes.new figures.new counts.new) reply.new
        ≡ ask_book (book_of image.old image_bytes.old figures.old counts.old) time
        (call_with client option.now (carried_if (not (eqb selected 0)) selection.now) reply.old) }
{
    let message = Message {
        client,
        time,
        selected: selected != 0,
    };
    call_ask::ask(
        image,
        image_bytes,
        figures,
        counts,
        message,
        option,
        selection,
        reply,
    )
    .into()
}

#[unsafe(no_mangle)]
pub extern "C" fn flockdrift_take(
    image: &mut [u8],
    image_bytes: &mut usize,
    figures: &mut [u8],
    counts: &mut Counts,
    client: u32,
    time: u32,
    option: &[u8],
    selected: u32,
    selection: &[u8],
    reply: &mut [u8],
) -> Answer
    ensures { outcome result (book_of image.new image_bytes.new figures.new counts.new) reply.new
        ≡ take_book (book_of image.old image_bytes.old figures.old counts.old) time
        (call_with client option.now (carried_if (not (eqb selected 0)) selection.now) reply.old) }
{
    let message = Message {
        client,
        time,
        selected: selected != 0,
    };
    call_take::take(
        image,
        image_bytes,
        figures,
        counts,
        message,
        option,
        selection,
        reply,
    )
    .into()
}

#[unsafe(no_mangle)]
pub extern "C" fn flockdrift_list(
    image: &[u8],
    image_bytes: usize,
    counts: &Counts,
    client: u32,
    time: u32,
    option: &[u8],
    reply: &mut [u8],
) -> Answer
    ensures { outcome result (book_of image.now image_bytes [] counts.now) reply.new
        ≡ list_book (book_of image.now image_bytes [] counts.now) time (call client option.now reply.old) }
{
    call_list::list(image, image_bytes, counts, client, time, option, reply).into()
}

#[unsafe(no_mangle)]
pub extern "C" fn flockdrift_release(
    image: &mut [u8],
    image_bytes: &mut usize,
    figures: &mut [u8],
    counts: &mut Counts,
    client: u32,
    time: u32,
    option: &[u8],
) -> Answer
    ensures { outcome result (book_of image.new image_bytes.new figures.new counts.new) []
        ≡ release_book (book_of image.old image_bytes.old figures.old counts.old) time (call client option.now []) }
{
    call_release::release(image, image_bytes, figures, counts, client, time, option).into()
}

#[unsafe(no_mangle)]
pub extern "C" fn flockdrift_mark(
    image: &mut [u8],
    image_bytes: &mut usize,
    figures: &mut [u8],
    counts: &mut Counts,
    network: u32,
    length: u32,
    deprecated: u32,
    time: u32,
) -> Answer
    ensures { outcome result (book_of image.new image_bytes.new figures.new counts.new) []
        ≡ mark_book (book_of image.old image_bytes.old figures.old counts.old) time network length (not (eqb deprecated 0)) }
{
    call_mark::mark(
        image,
        image_bytes,
        figures,
        counts,
        network,
        length,
        deprecated,
        time,
    )
    .into()
}

#[unsafe(no_mangle)]
pub extern "C" fn flockdrift_sheet(image: &[u8], text: &mut [u8]) -> Answer
    ensures { (result, text.new) ≡ sheet_image image.now text.old }
{
    call_sheet::sheet(image, text).into()
}

// QUERIES: the image is only read.

#[unsafe(no_mangle)]
pub extern "C" fn flockdrift_check(image: &[u8], image_bytes: usize, counts: &Counts) -> Answer
    ensures { result ≡ check_image (lent_in (book_of image.now image_bytes [] counts.now)) }
{
    call_query::check(image, image_bytes, counts).into()
}

// How much is left.
#[unsafe(no_mangle)]
pub extern "C" fn flockdrift_whole(
    image: &[u8],
    image_bytes: usize,
    counts: &Counts,
    length: u32,
) -> Answer
    ensures { result ≡ whole_book (book_of image.now image_bytes [] counts.now) length }
{
    call_query::whole(image, image_bytes, counts, length).into()
}

#[unsafe(no_mangle)]
pub extern "C" fn flockdrift_head(image: &[u8], image_bytes: usize, counts: &Counts) -> HeadAnswer
    ensures { result ≡ head_image (lent_in (book_of image.now image_bytes [] counts.now)) }
{
    call_query::head(image, image_bytes, counts)
}

#[unsafe(no_mangle)]
pub extern "C" fn flockdrift_pool(
    image: &[u8],
    image_bytes: usize,
    counts: &Counts,
    index: usize,
) -> PoolAnswer
    ensures { result ≡ pool_image (lent_in (book_of image.now image_bytes [] counts.now)) index }
{
    call_query::pool(image, image_bytes, counts, index)
}

#[unsafe(no_mangle)]
pub extern "C" fn flockdrift_lease(
    image: &[u8],
    image_bytes: usize,
    counts: &Counts,
    index: usize,
) -> LeaseAnswer
    ensures { result ≡ lease_image (lent_in (book_of image.now image_bytes [] counts.now)) index }
{
    call_query::lease(image, image_bytes, counts, index)
}

// OPTIONS, with no image.

#[unsafe(no_mangle)]
pub extern "C" fn flockdrift_check_option(option: &[u8]) -> Answer
    ensures { result ≡ option_check option.now }
{
    call_option::check_option(option).into()
}

#[unsafe(no_mangle)]
pub extern "C" fn flockdrift_read_selection(option: &[u8]) -> SelectionAnswer
    ensures { result ≡ selection_in option.now }
{
    call_option::read_selection(option)
}

#[unsafe(no_mangle)]
pub extern "C" fn flockdrift_write_selection(address: u32, buffer: &mut [u8]) -> Answer
    ensures { (result, buffer.new) ≡ selection_into address buffer.old }
{
    call_option::write_selection(address, buffer).into()
}
