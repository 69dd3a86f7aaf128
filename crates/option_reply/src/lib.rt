// The pieces that option 220 (RFC 6656) is made of, the reply of take and list, and option 118 (RFC 3011), written into a buffer.
#![tactic(auto)]

ghost use Rattle.std.specs.Prelude.{◌≡◌, ◌+◌, ◌*◌, ◌≤◌, ◌<◌, length};
ghost use Rattle.lists.specs.Put.{put};
ghost use Rattle.option.specs.Writing.{
  flags,
  entry_head,
  information_head,
  option_head,
};
ghost use Rattle.option.specs.Selection.{write_selection};
ghost use Rattle.option_reply.specs.Answers.{into};
ghost use Rattle.option.specs.Values.{most_entries};

pub use option::{MOST_ENTRIES, store};
use table::Lease;

// Why nothing is written: refusal 13, or refusal 14.
#[derive(Clone, Copy, Debug, PartialEq, Eq)]
pub enum WriteFault {
    OutsideRules,
    TooLong,
}

// A flags byte, from the bit of value 2 and the bit of value 1.
pub fn flags_byte(b: bool, a: bool) -> u8
    ensures { result ≡ flags b a }
{
    2 * u8::from(b) + u8::from(a)
}

// Bytes from a place on. Those past the end of the buffer are dropped.
pub fn put_bytes(buf: &mut [u8], at: usize, bytes: &[u8])
    ensures { buf.new ≡ put buf.old at bytes.now }
{
    if buf.len() <= at {
        return;
    }
    let n = bytes.len().min(buf.len() - at);
    buf[at..at + n].copy_from_slice(&bytes[..n]);
}

// The pieces of a reply. Each is put at a place of the buffer; bytes past the end of the buffer are dropped.

// Code, Len and the option's flags, at the start.
pub fn put_option_head(buf: &mut [u8], len: u8)
    ensures { buf.new ≡ put buf.old 0 (option_head len) }
{
    put_bytes(buf, 0, &[220, len, 0]);
}

// Number, Len and flags of an information.
pub fn put_information_head(buf: &mut [u8], at: usize, len: u8, c: bool, s: bool)
    ensures { buf.new ≡ put buf.old at (information_head len c s) }
{
    put_bytes(buf, at, &[2, len, flags_byte(c, s)]);
}

// The bytes of an entry up to its figures, of which stat-len counts the bytes; 0 is an entry without figures.
fn entry_head(network: u32, length: u8, h: bool, d: bool, stat: u8) -> [u8; 7]
    ensures { result ≡ entry_head network length h d stat }
{
    let n = network.to_be_bytes();
    [n[0], n[1], n[2], n[3], length, flags_byte(h, d), stat]
}

pub fn put_entry(buf: &mut [u8], at: usize, network: u32, length: u8, h: bool, d: bool, stat: u8)
    ensures { buf.new ≡ put buf.old at (entry_head network length h d stat) }
{
    put_bytes(buf, at, &entry_head(network, length, h, d, stat));
}

// THE REPLY OF TAKE AND LIST: an option with one information.

// A lease as an entry without figures. The reply has room for it, so no byte is tested.
pub fn put_lease(reply: &mut [u8], at: usize, x: Lease)
    requires { at + 7 ≤ length reply.old }
    ensures { reply.new ≡ put reply.old at (entry_head x.network x.length x.h x.d 0) }
{
    reply[at..at + 7].copy_from_slice(&entry_head(x.network, x.length, x.h, x.d, 0));
}

// Code and Len of the option and the head of its information, before the entries of n leases; the bytes of the whole reply.
pub fn put_heads(reply: &mut [u8], n: usize, c: bool, s: bool) -> usize
    requires { n ≤ most_entries }
    ensures value { result ≡ 7 * n + 6 }
    ensures reply_after { reply.new ≡ put (put reply.old 0 (option_head (7 * n + 4))) 3 (information_head (7 * n + 1) c s) }
{
    put_option_head(reply, (7 * n + 4) as u8);
    put_information_head(reply, 3, (7 * n + 1) as u8, c, s);
    7 * n + 6
}

// OPTION 118

// An address, at the start of the buffer.
pub fn write_selection(address: u32, buf: &mut [u8]) -> Result<usize, WriteFault>
    ensures { (result, buf.new) ≡ into (write_selection (length buf.old) address) buf.old }
{
    if buf.len() < 6 {
        return Err(WriteFault::TooLong);
    }
    put_bytes(buf, 0, &[118, 4]);
    put_bytes(buf, 2, &address.to_be_bytes());
    Ok(6)
}
