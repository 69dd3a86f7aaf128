// The end of ask as a call on an image: what its requests get, leases again and new ones on the gaps of the image, becomes records
// and rows of the figures sheet, and the reply.
#![tactic(auto)]

ghost use Rattle.std.specs.Prelude.{◌≡◌, true, List, [], ◌∷◌, ◌++◌, map, ℕ, ◌+◌, ◌-◌, ◌*◌, ◌≤◌, length as length_of, drop};
ghost use Rattle.std.proofs.Math.Option.{Option};
ghost use Rattle.lists.specs.Lists.{All, cat_maybes};
ghost use Rattle.lists.specs.Put.{put};
ghost use Rattle.prefix.specs.Prefixes.{longest};
ghost use Rattle.option.specs.Values.{longest_option, most_requests};
ghost use Rattle.option.specs.Contents.{Request};
ghost use Rattle.option.specs.Writing.{suboption_bytes};
ghost use Rattle.names.specs.declared.Name.{Name};
ghost use Rattle.table.specs.declared.Lease.{Lease};
ghost use Rattle.table.specs.Table.{lease_slots, present};
ghost use Rattle.image.specs.Image.{lease_size};
ghost use Rattle.image.specs.Reading.{lease_in};
ghost use Rattle.image_records.specs.Records.{Records};
ghost use Rattle.ledger.specs.Answers.{answer_of};
ghost use Rattle.ledger.specs.Ledger.{Call, call_with, outcome, narrowed, information_for};
ghost use Rattle.ask_again.specs.Places.{no_place, Within, InBuffer, given_in, others_in};
ghost use Rattle.ask_serve.specs.Granting.{offers_in, leases_in, Granted};
ghost use Rattle.call_spec.specs.ImageCalls.{Lent, lent, table_in, ask_image};
ghost use Rattle.call_rows.specs.Admission.{Admitted};
ghost use Rattle.call_ground.specs.Ground.{Grounds, returning};
ghost use Rattle.ask_commit.specs.Asking.{WithinSite, Ready, Asking};
ghost use Rattle.ask_commit.specs.InnerReply.{Shown, given_or, each_of, Replied};
ghost use Rattle.ask_commit.specs.InnerRest.{AdmittedImage};

use ask_again::{Asker, NONE};
use ask_gaps::Span;
use ask_serve::Start;
use call_ground::Ground;
use gap_list::Ends;
use image::{HEAD, LEASE, POOL};
use image_check::ImageSummary;
use ledger::{Accepted, Refusal};
use option::MOST_REQUESTS;
use table::{LEASES, Lease, POOLS};

// How many gaps there can be: one before each lease, and one at the end of each pool.
const GAPS: usize = LEASES + POOLS;

// THE REPLY

// One information with one entry. The reply has room for it, so no byte is tested.
fn put_offer(reply: &mut [u8], at: usize, x: Lease)
    requires { at + 10 ≤ length_of reply.old }
    ensures { reply.new ≡ put reply.old at (suboption_bytes (information_for x)) }
{
    reply[at] = 2;
    reply[at + 1] = 8;
    reply[at + 2] = 0;
    option_reply::put_lease(reply, at + 3, x);
}

// What one request gets, if it gets something: the lease at its place again, or a new one, whose length is 0 if there is none.
// Answers where the next information stands.
fn put_one(reply: &mut [u8], at: usize, image: &[u8], from: usize, place: u16, x: Lease) -> usize
    requires { (at + 10 ≤ length_of reply.old) × InBuffer from (length_of image.now) place }
    ensures bounds { (at ≤ result) × (result ≤ at + 10) }
    ensures equation { ((before : List ℕ) (xs : List Lease) → Shown before reply.old at xs
        → Shown before reply.new result (xs ++ cat_maybes (given_or place (lease_in (drop (from + lease_size * place) image.now)) x ∷ []))) }
{
    if place != NONE {
        let y = image_records::lease_at(image, from + LEASE * usize::from(place));
        put_offer(reply, at, y);
        return at + 10;
    }
    if x.length != 0 {
        put_offer(reply, at, x);
        return at + 10;
    }
    at
}

// An information for each request that gets something, in order, and the option's head before them; answers how many bytes that
// is. An entry shows neither the client nor the end nor the name.
fn put_offers(
    reply: &mut [u8],
    image: &[u8],
    from: usize,
    places: &[u16],
    networks: &[u32],
    lengths: &[u8],
    flags: &[u8],
) -> usize
    requires { (length_of flags.now ≤ most_requests) × (3 + 10 * length_of flags.now ≤ length_of reply.old) × (length_of places.now ≡ length_of flags.now) × (length_of flags.now ≤ length_of networks.now)
        × (length_of flags.now ≤ length_of lengths.now) × All (InBuffer from (length_of image.now)) places.now }
    ensures upper_bound { result ≤ 3 + 10 * length_of flags.now }
    ensures equation { ((client expires : ℕ) (name : Name) (us : List Lease) → Records image.now from us → All (Within (length_of us)) places.now
        → Replied reply.old reply.new result
        (map information_for (cat_maybes (each_of (given_in us places.now) (offers_in client expires name networks.now lengths.now flags.now))))) }
{
    let nobody = Asker {
        client: 0,
        time: 0,
        name: names::no_name(),
    };
    let mut at: usize = 3;
    for (j, place) in places.iter().enumerate() {
        let x = ask_insert::granted_at(networks, lengths, flags, j, nobody, 0);
        at = put_one(reply, at, image, from, *place, x);
    }
    option_reply::put_option_head(reply, (at - 2) as u8);
    at
}

// THE CALL

// What the check found of an image, and the ground of the call in it.
#[derive(Clone, Copy)]
pub struct Site {
    pub summary: ImageSummary,
    pub area: Ground,
}

// The requests that have no place, served on the gaps of the ground; answers how many are granted. Where there are none, or no slot
// is empty, the gaps are not looked for.
fn serve_rest(
    image: &[u8],
    site: Site,
    asker: Asker,
    ask_lengths: &[u8],
    places: &[u16],
    again: usize,
    networks: &mut [u32],
    lengths: &mut [u8],
) -> usize
    requires { AdmittedImage image.now asker.time asker.client site.summary × WithinSite site × (length_of places.now ≡ length_of ask_lengths.now) × (again ≡ others_in no_place places.now (length_of ask_lengths.now))
        × (length_of ask_lengths.now ≤ length_of networks.old) × (length_of ask_lengths.now ≤ length_of lengths.old) × (leases_in lengths.old (length_of ask_lengths.now) ≡ 0) }
    ensures bounds { (result ≤ length_of ask_lengths.now) × (result ≤ lease_slots - (site.summary.leases - site.summary.expired)) × (result ≡ leases_in lengths.new (length_of ask_lengths.now)) }
    ensures equation { ((h : Lent) (c : Call) (us : List Lease) (rs : List Request) → h.image ≡ image.now → Admitted true h asker.time asker.client site.summary → Grounds h c site.summary site.area
        → ask_lengths.now ≡ map (λ r. r.length) rs → All (λ r. r.length ≤ longest) rs
        → Granted (narrowed (table_in h) c) asker.time asker.client asker.name (present asker.time (table_in h).leases) (given_in us places.now) rs networks.new lengths.new) }
{
    if again == ask_lengths.len() {
        return 0;
    }
    let summary = site.summary;
    let present = summary.leases - summary.expired;
    if LEASES <= present {
        return 0;
    }
    let area = site.area;
    let span = Span {
        pool: area.pool,
        pools: area.pools,
        from: HEAD + POOL * summary.pools + LEASE * area.first,
        leases: area.leases,
    };
    let mut gaps = [Ends { first: 0, last: 0 }; GAPS];
    let n = ask_gaps::gaps_in(image, span, asker.time, &mut gaps);
    let start = Start {
        default_length: summary.default_length,
        gaps: n,
        slots: LEASES - present,
    };
    ask_serve::serve(ask_lengths, places, start, &mut gaps, networks, lengths)
}

// Rows 9 and 10, and what the requests get, once every row before them has passed, but for option 118 in the reply. Nothing is
// written before a request gets something. The columns have the length and h of each request.
pub fn grant(
    image: &mut [u8],
    image_bytes: &mut usize,
    figures: &mut [u8],
    asker: Asker,
    reply: &mut [u8],
    site: Site,
    ask_lengths: &[u8],
    ask_h: &[u8],
) -> Result<Accepted, Refusal>
    requires { Ready (lent image.old image_bytes.old figures.old) asker.time asker.client reply.old site ask_lengths.now ask_h.now }
    ensures bytes_bound { (answer_of result).bytes ≤ longest_option }
    ensures equation { ((option : List ℕ) (selection : Option (List ℕ))
        → Asking (lent image.old image_bytes.old figures.old) asker.time asker.name (call_with asker.client option selection reply.old) site ask_lengths.now ask_h.now
        → returning selection (outcome (answer_of result) (lent image.new image_bytes.new figures.new) reply.new)
        ≡ ask_image (lent image.old image_bytes.old figures.old) asker.time (call_with asker.client option selection reply.old)) }
{
    let summary = site.summary;
    let area = site.area;
    // Where the leases on the ground begin: places are counted from there.
    let from = HEAD + POOL * summary.pools + LEASE * area.first;
    let requests = ask_lengths.len();
    let mut places = [0u16; MOST_REQUESTS];
    let again = ask_again::find_held(
        image,
        from,
        area.leases,
        asker,
        summary.default_length,
        ask_lengths,
        ask_h,
        &mut places,
    );
    let mut networks = [0u32; MOST_REQUESTS];
    let mut lengths = [0u8; MOST_REQUESTS];
    let granted = serve_rest(
        image,
        site,
        asker,
        ask_lengths,
        &places[..requests],
        again,
        &mut networks,
        &mut lengths,
    );
    let count = again + granted;
    if count == 0 {
        if LEASES <= summary.leases - summary.expired {
            return Err(Refusal::TableFull);
        }
        return Err(Refusal::NoFreePrefix);
    }
    let bytes = put_offers(
        reply,
        image,
        from,
        &places[..requests],
        &networks,
        &lengths,
        ask_h,
    );
    ask_again::hold_again(image, from, &places[..requests], asker.time);
    *image_bytes = ask_insert::commit_grants(
        image, figures, summary, asker, &networks, &lengths, ask_h,
    );
    Ok(Accepted {
        bytes: bytes as u32,
        count: count as u32,
    })
}
