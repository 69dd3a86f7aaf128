// The requests of an ask served in order, each on the gaps that the one before left.
#![tactic(auto)]

ghost use Rattle.std.specs.Prelude.{◌≡◌, List, ℕ, ◌+◌, ◌≤◌, ◌<◌, length as length_of};
ghost use Rattle.names.specs.declared.Name.{Name};
ghost use Rattle.table.specs.declared.Lease.{Lease};
ghost use Rattle.table.specs.declared.LeaseTable.{LeaseTable};
ghost use Rattle.option.specs.Contents.{Request};
ghost use Rattle.ledger.specs.Ledger.{Call, narrowed};
ghost use Rattle.ask_again.specs.Places.{given_in};
ghost use Rattle.ask_serve.specs.Granting.{leases_in, Serving, Granted};
ghost use Rattle.ask_serve.specs.InnerServing.{columns, Served};

use ask_again::NONE;
use gap_list::Ends;

// How many gaps there are, how many requests are granted, and how many slots are left.
#[derive(Clone, Copy)]
pub struct Progress {
    pub gaps: usize,
    pub granted: usize,
    pub left: usize,
}

// One request, whose place in the columns is j: granted it splits a gap and takes a slot, refused it has the length 0 there. So
// does one that gets a lease again, and nothing else changes then.
fn serve_one(
    gaps: &mut [Ends],
    networks: &mut [u32],
    lengths: &mut [u8],
    at: Progress,
    length: u8,
    j: usize,
    place: u16,
) -> Progress
    requires { (at.gaps + at.left ≤ length_of gaps.old) × (at.granted ≤ j) × (j < length_of networks.old) × (j < length_of lengths.old) }
    ensures { Served place length j (columns gaps.old networks.old lengths.old) at (columns gaps.new networks.new lengths.new) result }
{
    lengths[j] = 0;
    if place != NONE {
        return at;
    }
    let left = at.left;
    if left == 0 {
        return at;
    }
    let n = at.gaps;
    let Some(fit) = gap_list::fit(&gaps[..n], length) else {
        return at;
    };
    let network = fit.network;
    let more = gap_list::carve(gaps, n, fit.index, network, length);
    networks[j] = network;
    lengths[j] = length;
    Progress {
        gaps: more,
        granted: at.granted + 1,
        left: left - 1,
    }
}

// What serving begins with: the default length, how many gaps there are, and how many slots are empty.
#[derive(Clone, Copy)]
pub struct Start {
    pub default_length: u8,
    pub gaps: usize,
    pub slots: usize,
}

// The requests that get no lease again, in order, each on the gaps that the one before left, while slots are left; answers how
// many are granted. The columns have what each is granted in its place, and the length 0 there where that is nothing.
pub fn serve(
    ask_lengths: &[u8],
    places: &[u16],
    start: Start,
    gaps: &mut [Ends],
    networks: &mut [u32],
    lengths: &mut [u8],
) -> usize
    requires { (length_of places.now ≡ length_of ask_lengths.now) × (start.gaps + start.slots ≤ length_of gaps.old) × (1 ≤ start.default_length) × (length_of ask_lengths.now ≤ length_of networks.old) × (length_of ask_lengths.now ≤ length_of lengths.old) }
    ensures upper_bound { result ≤ length_of ask_lengths.now }
    ensures upper_bound_2 { result ≤ start.slots }
    ensures value { result ≡ leases_in lengths.new (length_of ask_lengths.now) }
    ensures granted { (t : LeaseTable) (c : Call) (time client : ℕ) (name : Name) (xs us : List Lease) (rs : List Request)
        → Serving t c time client xs rs gaps.old start ask_lengths.now
        → Granted (narrowed t c) time client name xs (given_in us places.now) rs networks.new lengths.new }
{
    let default_length = start.default_length;
    let mut at = Progress {
        gaps: start.gaps,
        granted: 0,
        left: start.slots,
    };
    for j in 0..ask_lengths.len() {
        let length = ask_again::ask_length(ask_lengths[j], default_length);
        at = serve_one(gaps, networks, lengths, at, length, j, places[j]);
    }
    at.granted
}
