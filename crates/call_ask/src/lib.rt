// Ask as a call on an image, in place.
#![tactic(auto)]

ghost use Rattle.std.specs.Prelude.{◌≡◌, not, ◌&&◌, [], ◌∷◌, leb, eqb};
ghost use Rattle.lists.specs.Lists.{and};
ghost use Rattle.option.specs.Values.{most_requests};
ghost use Rattle.ledger.specs.Answers.{answer_of};
ghost use Rattle.ledger.specs.Ledger.{call_with, outcome};
ghost use Rattle.call_spec.specs.ImageCalls.{carried_if};
ghost use Rattle.call_spec.specs.Books.{book_of, ask_book};

use ask_again::Asker;
use ask_commit::Site;
use call_spec::Message;
use counts::Counts;
use ledger::{Accepted, Answer, Refusal};
use option_scan::{MOST_ENTRIES, MOST_REQUESTS};

// Row 8: "the option has 1 to 25 requests, none with i".
fn for_ask(requests: usize, listing: usize) -> bool
    ensures { result ≡ and (leb 1 requests ∷ leb requests most_requests ∷ eqb listing 0 ∷ []) }
{
    (1..=MOST_REQUESTS).contains(&requests) && listing == 0
}

// Whether leases came or went: some had expired, or there are more than there were.
fn moved(expired: usize, before: usize, after: usize) -> bool
    ensures { result ≡ not (eqb expired 0 && eqb before after) }
{
    expired != 0 || before != after
}

pub fn ask(
    image: &mut [u8],
    image_bytes: &mut usize,
    figures: &mut [u8],
    counts: &mut Counts,
    message: Message,
    option: &[u8],
    selection: &[u8],
    reply: &mut [u8],
) -> Result<Accepted, Refusal>
    ensures { outcome (answer_of result) (book_of image.new image_bytes.new figures.new counts.new) reply.new
        ≡ ask_book (book_of image.old image_bytes.old figures.old counts.old) message.time
        (call_with message.client option.now (carried_if message.selected selection.now) reply.old) }
{
    let bytes = *image_bytes;
    let client = message.client;
    let time = message.time;
    let selected = message.selected;
    let short = call_rows::too_short(reply.len(), selected);
    let summary = call_rows::admit(image, bytes, figures, true, counts, short, client, time)?;
    let address = call_rows::read_selection(selected, selection)?;
    let mut asks = [0u8; MOST_REQUESTS];
    let mut h = [0u8; MOST_REQUESTS];
    let mut networks = [0u32; MOST_ENTRIES];
    let mut lengths = [0u8; MOST_ENTRIES];
    let pieces = call_rows::read_option(option, &mut asks, &mut h, &mut networks, &mut lengths)?;
    let n = pieces.requests;
    if !for_ask(n, pieces.listing) {
        return Err(Refusal::WrongSuboptions);
    }
    // Row 17, whatever would be granted.
    let name_bytes = pieces.name_bytes;
    if names::LONGEST < name_bytes {
        return Err(Refusal::NameTooLong);
    }
    let Some(area) = call_ground::ground_of(image, summary, address) else {
        return Err(Refusal::NoSuchPool);
    };
    let name = names::name_in(option, pieces.name, name_bytes);
    let answer = ask_commit::grant(
        image,
        image_bytes,
        figures,
        Asker { client, time, name },
        reply,
        Site { summary, area },
        &asks[..n],
        &h[..n],
    );
    let after = *image_bytes;
    let moved = moved(summary.expired, bytes, after);
    let number = Answer::from(answer).number;
    call_rows::settle(number, moved, image, after, summary.pools, counts);
    call_ground::return_selection(answer, selected, selection, reply)
}
