// Address prefixes (document 01: a block). Every size and every end comes from `size`.
#![tactic(auto)]

ghost use Rattle.std.specs.Prelude.{◌≡◌, ◌+◌, ◌%◌, ◌≤◌, ◌<◌};
ghost use Rattle.prefix.specs.Prefixes.{
  size as size_of,
  end as end_of,
  lower as lower_of,
  upper as upper_of,
  checked,
  block?,
  longest,
};

// How many addresses there are: an address has 32 bits.
const ADDRESSES: u64 = 4294967296;

// The number of addresses in a prefix of this length. Past 32 it is that of a single address. Halved so many times, and not a bit
// shifted up: so its mask comes from the size itself, and a check of both shifts once.
pub fn size(length: u8) -> u64
    ensures value { result ≡ size_of length }
    ensures upper_bound { result ≤ 4294967296 }
{
    if 32 < length {
        return 1;
    }
    ADDRESSES >> length
}

// How far an address lies past the last one that is aligned at this length; the sizes are powers of two, so no division is needed.
pub fn offset(address: u64, length: u8) -> u64
    ensures { result ≡ address % size_of length }
{
    address & (size(length) - 1)
}

#[derive(Clone, Copy, Debug, PartialEq, Eq)]
pub struct Prefix {
    pub network: u32,
    pub length: u8,
}

// Why a network and a length are no block.
#[derive(Clone, Copy, Debug, PartialEq, Eq)]
pub enum PrefixFault {
    BadLength,
    Misaligned,
}

impl Prefix {
    // "A block length runs from 1 to 30"
    pub const SHORTEST: u8 = 1;

    pub const LONGEST: u8 = 30;

    // The prefix with this network and length, refused where it is no block of document 01.
    pub fn new(network: u32, length: u8) -> Result<Prefix, PrefixFault>
        ensures { result ≡ checked network length }
    {
        if length < Prefix::SHORTEST || Prefix::LONGEST < length {
            return Err(PrefixFault::BadLength);
        }
        if offset(u64::from(network), length) != 0 {
            return Err(PrefixFault::Misaligned);
        }
        Ok(Prefix { network, length })
    }

    // The first address after it; 64 bits, since the last prefix ends at 2^32.
    pub fn end(self) -> u64
        ensures value { result ≡ end_of self }
        ensures upper_bound { result ≤ 8589934591 }
    {
        u64::from(self.network) + size(self.length)
    }

    // The lower half of a prefix that is not of the longest length.
    pub fn lower(self) -> Prefix
        requires { self.length < longest }
        ensures { result ≡ lower_of self }
    {
        Prefix {
            network: self.network,
            length: self.length + 1,
        }
    }

    // The upper half of a prefix that is not of the longest length and lies in the address space.
    pub fn upper(self) -> Prefix
        requires { (self.length < longest) × (end_of self ≤ 4294967296) }
        ensures { result ≡ upper_of self }
    {
        let length = self.length + 1;
        let network = u64::from(self.network) + size(length);
        Prefix {
            network: network as u32,
            length,
        }
    }
}

// Whether a network and a length make a block.
pub fn is_block(network: u32, length: u8) -> bool
    ensures { result ≡ block? (checked network length) }
{
    Prefix::new(network, length).is_ok()
}
