// What the calls look at in an option 220, checked and read in one pass over its bytes into lent columns.
#![tactic(auto)]

ghost use Rattle.std.specs.Prelude.{◌≡◌, ◌+◌, ◌≤◌, ◌<◌};
ghost use Rattle.option.specs.declared.Suboption.TheVariants as Suboption;
ghost use Rattle.option_scan.specs.Scanned.{columns, Long, Reads};
ghost use Rattle.option_scan.specs.Inner.{
  with_information,
  with_name,
  with_suboption,
  Added,
  Small,
  Forward,
};

use option::{Cursor, InformationFields, NameFields, OptionFault, RequestFields, Suboption};
pub use option::{MOST_ENTRIES, MOST_REQUESTS};

#[derive(Clone, Copy)]
pub struct Contents {
    // How many requests there are, and how many of them have i.
    pub requests: usize,
    pub listing: usize,
    // How many entries there are.
    pub entries: usize,
    // The network of the last entry of the last information with c and s, if there is one.
    pub position: Option<u32>,
    // Where the octets of the first name stand, and how many there are.
    // Stays: no name is an empty part of the option, as `NamedIn` has it and as `names::name_in` reads it.
    pub name: usize,
    pub name_bytes: usize,
}

// Of no suboptions.
const NOTHING: Contents = Contents {
    requests: 0,
    listing: 0,
    entries: 0,
    position: None,
    name: 0,
    name_bytes: 0,
};

// A request: its length and h go into the columns, as far as these have room.
fn add_request(m: Contents, f: RequestFields, asks: &mut [u8], h: &mut [u8]) -> Contents
    requires { Small m }
    ensures { Added m (Suboption.Request f) asks.old h.old result asks.new h.new }
{
    option::store(asks, m.requests, f.length);
    option::store(h, m.requests, u8::from(f.h));
    Contents {
        requests: m.requests + 1,
        listing: m.listing + usize::from(f.i),
        ..m
    }
}

// An information, whose entries the step has stored: with c and s its last entry is the position of a list.
fn add_information(m: Contents, f: InformationFields) -> Contents
    requires { m.entries + f.count < 9223372036854775808 }
    ensures { result ≡ with_information m f }
{
    let position = if f.c && f.s { Some(f.last) } else { m.position };
    Contents {
        entries: m.entries + f.count,
        position,
        ..m
    }
}

// A name: the first one counts. A good one has an octet, so that no octets are no name.
fn add_name(m: Contents, f: NameFields) -> Contents
    requires { f.start ≤ f.end }
    ensures { result ≡ with_name m f }
{
    if m.name_bytes != 0 {
        return m;
    }
    Contents {
        name: f.start,
        name_bytes: f.end - f.start,
        ..m
    }
}

// A suboption. Unknown ones have no effect.
fn add(m: Contents, x: Suboption, asks: &mut [u8], h: &mut [u8]) -> Contents
    requires { Small m × ((with_suboption m x).entries < 9223372036854775808) × Forward x }
    ensures { Added m x asks.old h.old result asks.new h.new }
{
    match x {
        Suboption::Request(f) => add_request(m, f, asks, h),
        Suboption::Information(f) => add_information(m, f),
        Suboption::Name(f) => add_name(m, f),
        Suboption::Unknown(_) => m,
    }
}

// The check of an option, and what the calls look at in it: all suboptions, in order, up to the first bad one.
pub fn read(
    option: &[u8],
    asks: &mut [u8],
    h: &mut [u8],
    networks: &mut [u32],
    lengths: &mut [u8],
) -> Result<Contents, OptionFault>
    requires { Long (columns asks.old h.old networks.old lengths.old) }
    ensures { Reads option.now result (columns asks.new h.new networks.new lengths.new) }
{
    if !option::is_option(option) {
        return Err(OptionFault::NotTheOption);
    }
    let mut contents = NOTHING;
    let mut cursor = Cursor::first();
    while let Some((x, next)) = cursor.step_into(option, contents.entries, networks, lengths)? {
        contents = add(contents, x, asks, h);
        cursor = next;
    }
    Ok(contents)
}
