// Take as a call on an open book, in place.
#![tactic(auto)]

ghost use Rattle.std.specs.Prelude.{◌≡◌, List, ◌++◌, ℕ, ◌+◌, ◌*◌, ◌≤◌, ◌<◌, length, take as up_to, IfOk};
ghost use Rattle.lists.specs.Lists.{All};
ghost use Rattle.std.proofs.Math.Option.{Option};
ghost use Rattle.option.specs.Values.{longest_option, Entry};
ghost use Rattle.table.specs.declared.Lease.{Lease};
ghost use Rattle.table.specs.Table.{addresses, pool_slots, lease_slots};
ghost use Rattle.image_check.specs.declared.ImageSummary.{ImageSummary};
ghost use Rattle.image_records.specs.Records.{Records, Ascending};
ghost use Rattle.image.specs.Image.{lease_size};
ghost use Rattle.figures.specs.declared.FigureRow.{FigureRow};
ghost use Rattle.figures.specs.Inner.{with_each, filing};
ghost use Rattle.image_figures.specs.Sheets.{row_size, sheet_of};
ghost use Rattle.ledger.specs.Answers.{answer_of};
ghost use Rattle.ledger.specs.Ledger.{call_with, outcome};
ghost use Rattle.call_entries.specs.EntryLeases.{Hold};
ghost use Rattle.call_ground.specs.declared.Ground.{Ground};
ghost use Rattle.call_ground.specs.Ground.{returning};
ghost use Rattle.call_spec.specs.ImageCalls.{lent, take_image, carried_if};
ghost use Rattle.call_spec.specs.Books.{book_of, take_book};
ghost use Rattle.call_take.specs.InnerTaking.{renewal_of, TakeSized, Taking};
ghost use Rattle.call_take.specs.InnerRenewed.{Renewed};
ghost use Rattle.call_take.specs.InnerPlaces.{PlaceBelow, filed_at, RowWithin, ToFile};

use call_entries::Expiry;
use call_ground::Ground;
use call_spec::Message;
use counts::Counts;
use image::{HEAD, LEASE, POOL};
use image_check::ImageSummary;
use ledger::{Accepted, Answer, Refusal};
use option::Figures;

// The n leases from `from` on, of which so many have expired; those of them on the ground of the call, so many from the place
// `first` on; and what becomes of those that are named.
#[derive(Clone, Copy)]
struct Renewal {
    from: usize,
    n: usize,
    first: usize,
    leases: usize,
    expired: usize,
    expiry: Expiry,
}

fn renewal_of(summary: ImageSummary, area: Ground, client: u32, time: u32) -> Renewal
    requires { (summary.pools ≤ pool_slots) × (time + summary.term < addresses) }
    ensures { result ≡ renewal_of client time summary area }
{
    Renewal {
        from: HEAD + POOL * summary.pools,
        n: summary.leases,
        first: area.first,
        leases: area.leases,
        expired: summary.expired,
        expiry: Expiry {
            client,
            time,
            expires: time + summary.term,
        },
    }
}

// Renews each lease on the ground that an entry names, and shows it in the reply; how many. The first one makes the call an
// accepted one, so the image and the reply may be written at once. For each entry the place of its lease among those on the ground
// is kept, if it has one.
fn renew_named(
    image: &mut [u8],
    renewal: Renewal,
    networks: &[u32],
    lengths: &[u8],
    places: &mut [Option<usize>],
    reply: &mut [u8],
) -> usize
    requires { (renewal.from + lease_size * renewal.n ≤ length image.old) × (renewal.n ≤ lease_slots) × (renewal.first + renewal.leases ≤ renewal.n) × (length networks.now ≡ length lengths.now) × (length networks.now ≤ length places.old) × (6 + 7 * length networks.now ≤ length reply.old) × (renewal.expiry.time < renewal.expiry.expires) }
    ensures in_bounds { result ≤ length networks.now }
    ensures on_ground { All (PlaceBelow renewal.leases) (up_to (length networks.now) places.new) }
    ensures equation { ((xs : List Lease) → Records image.old (renewal.from + lease_size * renewal.first) xs → renewal.leases ≡ length xs → Ascending xs
        → (es : List Entry) → Hold networks.now lengths.now es
        → Renewed image.old (renewal.from + lease_size * renewal.first) xs renewal.expiry.time renewal.expiry.client renewal.expiry.expires es reply.old
        image.new (up_to (length networks.now) places.new) reply.new result) }
{
    let from = renewal.from + LEASE * renewal.first;
    let n = renewal.leases;
    let mut shown: usize = 0;
    for (k, network) in networks.iter().enumerate() {
        match call_entries::set_expiry(image, from, n, renewal.expiry, *network, lengths[k]) {
            Some(i) => {
                places[k] = Some(i);
                let x = image_records::lease_at(image, from + LEASE * i);
                option_reply::put_lease(reply, 6 + 7 * shown, x);
                shown += 1;
            }
            None => places[k] = None,
        }
    }
    shown
}

// Files figures in the row at a place, if there is one, counted from the row `first` on. Where there are none the row is as it was.
fn file_at(sheet: &mut [u8], first: usize, place: Option<usize>, f: Figures)
    requires { RowWithin first (length sheet.old) place }
    ensures { ((rows : List FigureRow) → sheet.old ≡ sheet_of rows → sheet.new ≡ sheet_of (filed_at first place f rows)) }
{
    if f.count == 0 {
        return;
    }
    if let Some(i) = place {
        image_figures::file(sheet, first + i, f);
    }
}

// Files the figures of each entry in the row of the lease that it names: the places are those of the leases, counted from the row
// `first` on. The option is read once more, as only an accepted take has a use for figures.
fn file_named(figures: &mut [u8], option: &[u8], places: &[Option<usize>], first: usize)
    requires { All (RowWithin first (length figures.old)) places.now }
    ensures { ((time client : ℕ) (xs : List Lease) (es : List Entry) (before rs : List FigureRow)
        → ToFile option.now places.now figures.old first time client xs es before rs
        → figures.new ≡ sheet_of (before ++ with_each (filing time client es) xs rs)) }
{
    let mut entries = call_entries::first_entries();
    for place in places {
        let read = call_entries::read_figures(option, entries);
        file_at(figures, first, *place, read.figures);
        entries = read.next;
    }
}

// Row 11, and what is found, once every row before it has passed; option 118 still has to follow in the reply. The columns have
// the networks and lengths of the entries.
fn renew_found(
    image: &mut [u8],
    image_bytes: &mut usize,
    figures: &mut [u8],
    renewal: Renewal,
    option: &[u8],
    networks: &[u32],
    lengths: &[u8],
    reply: &mut [u8],
) -> Result<Accepted, Refusal>
    requires { TakeSized (lent image.old image_bytes.old figures.old) renewal reply.old networks.now lengths.now }
    ensures bytes_bound { IfOk result (λ a. a.bytes ≤ longest_option) }
    ensures equation { ((client time : ℕ) (summary : ImageSummary) (area : Ground) (selection : Option (List ℕ)) → renewal ≡ renewal_of client time summary area
        → Taking (lent image.old image_bytes.old figures.old) time (call_with client option.now selection reply.old)
        summary area networks.now lengths.now
        → returning selection (outcome (answer_of result) (lent image.new image_bytes.new figures.new) reply.new)
        ≡ take_image (lent image.old image_bytes.old figures.old) time (call_with client option.now selection reply.old)) }
{
    let mut places = [None; option_scan::MOST_ENTRIES];
    let shown = renew_named(image, renewal, networks, lengths, &mut places, reply);
    if shown == 0 {
        return Err(Refusal::NothingFound);
    }
    let reply_bytes = option_reply::put_heads(reply, shown, false, false);
    let first = renewal.first;
    file_named(figures, option, &places[..networks.len()], first);
    let from = renewal.from;
    let n = renewal.n;
    let expired = renewal.expired;
    let time = renewal.expiry.time;
    call_rows::strike_expired(figures, image, from, n, expired, time);
    *image_bytes = call_rows::remove_expired(image, from, n, expired, time);
    Ok(Accepted {
        bytes: reply_bytes as u32,
        count: shown as u32,
    })
}

pub fn take(
    image: &mut [u8],
    image_bytes: &mut usize,
    figures: &mut [u8],
    counts: &mut Counts,
    message: Message,
    option: &[u8],
    selection: &[u8],
    reply: &mut [u8],
) -> Result<Accepted, Refusal>
    ensures { outcome (answer_of result) (book_of image.new image_bytes.new figures.new counts.new) reply.new
        ≡ take_book (book_of image.old image_bytes.old figures.old counts.old) message.time
        (call_with message.client option.now (carried_if message.selected selection.now) reply.old) }
{
    let bytes = *image_bytes;
    let client = message.client;
    let time = message.time;
    let selected = message.selected;
    let short = call_rows::too_short(reply.len(), selected);
    let summary = call_rows::admit(image, bytes, figures, true, counts, short, client, time)?;
    let address = call_rows::read_selection(selected, selection)?;
    let mut networks = [0u32; option_scan::MOST_ENTRIES];
    let mut lengths = [0u8; option_scan::MOST_ENTRIES];
    let n = call_entries::read_entries(option, &mut networks, &mut lengths)?;
    let area = call_ground::ground_of(image, summary, address).ok_or(Refusal::NoSuchPool)?;
    let renewal = renewal_of(summary, area, client, time);
    let answer = renew_found(
        image,
        image_bytes,
        figures,
        renewal,
        option,
        &networks[..n],
        &lengths[..n],
        reply,
    );
    // Of the leases only expired ones go.
    let moved = summary.expired != 0;
    let number = Answer::from(answer).number;
    call_rows::settle(number, moved, image, *image_bytes, summary.pools, counts);
    call_ground::return_selection(answer, selected, selection, reply)
}
