// Lines from an input, in two lent buffers: a chunk of the input, and the line that is being read.
#![tactic(auto)]

ghost use Rattle.std.specs.Prelude.{◌≡◌, ◌≤◌, ◌<◌, length};
ghost use Rattle.console_input.specs.Lines.{line_space};

use console_script::LONGEST;
use std::io::Read;

// What was read and not yet run: the input from a place to another, behind the `pending` bytes of a line. The line is whole once its newline was read,
// or the input has ended.
#[derive(Clone, Copy, Debug, PartialEq, Eq)]
pub struct Reader {
    pub from: usize,
    pub to: usize,
    pub pending: usize,
    pub whole: bool,
    pub ended: bool,
}

// The program that reads, as its complaints name it.
pub const NAME: [u8; 7] = *b"console";

// Space for the longest line, a carriage return, and one byte more, so that a longer line shows.
pub const LINE: usize = LONGEST + 2;

pub fn line() -> [u8; LINE]
    ensures { line_space ≡ length result }
{
    [0; LINE]
}

pub fn first_reader() -> Reader
    ensures { (result.from ≡ 0) × (result.to ≡ 0) × (result.pending ≡ 0) }
{
    Reader {
        from: 0,
        to: 0,
        pending: 0,
        whole: false,
        ended: false,
    }
}

// The input has ended, with so many bytes of a last line, which may lack its newline.
fn at_end(pending: usize) -> Reader
    ensures { (result.from ≡ 0) × (result.to ≡ 0) × (result.pending ≡ pending) }
{
    Reader {
        from: 0,
        to: 0,
        pending,
        whole: 0 < pending,
        ended: true,
    }
}

// Reads once, behind `pending` bytes of a line. A line that is cut by a failed read is not run.
fn read_more<R: Read>(errors: &impl Print, from: &mut R, pending: usize, input: &mut [u8]) -> Reader
    ensures { (result.from ≡ 0) × (result.to ≤ length input.old) × (result.pending ≤ pending) }
{
    let Ok(to) = program::read_some(errors, &NAME, from, input) else {
        return at_end(0);
    };
    if to == 0 {
        return at_end(pending);
    }
    Reader {
        from: 0,
        to,
        pending,
        whole: false,
        ended: false,
    }
}

// Takes the input up to the next newline. A line longer than the space for it keeps its first bytes, which are too many for a line.
fn take_piece(r: Reader, pending: usize, input: &[u8], line: &mut [u8]) -> Reader
    requires from_le_to { (r.from ≤ r.to) × (r.to ≤ length input.now) }
    requires pending_in_bounds { pending ≤ length line.old }
    ensures { (result.from ≤ result.to) × (result.to ≤ length input.now) × (result.pending ≤ length line.old) }
{
    let end = octets::find(&input[..r.to], r.from, b'\n');
    let whole = end < r.to;
    let n = (end - r.from).min(line.len() - pending);
    line[pending..pending + n].copy_from_slice(&input[r.from..r.from + n]);
    Reader {
        from: if whole { end + 1 } else { end },
        to: r.to,
        pending: pending + n,
        whole,
        ended: false,
    }
}

// How much there is of the line that is read next.
fn begun(r: Reader) -> usize
    ensures { result ≤ r.pending }
{
    if r.whole { 0 } else { r.pending }
}

// Takes a piece of what was read, or reads once.
pub fn go_on<R: Read>(
    errors: &impl Print,
    from: &mut R,
    r: Reader,
    input: &mut [u8],
    line: &mut [u8],
) -> Reader
    requires from_le_to { (r.from ≤ r.to) × (r.to ≤ length input.old) }
    requires pending_in_bounds { r.pending ≤ length line.old }
    ensures { (result.from ≤ result.to) × (result.to ≤ length input.old) × (result.pending ≤ length line.old) }
{
    let pending = begun(r);
    if r.from < r.to {
        return take_piece(r, pending, input, line);
    }
    read_more(errors, from, pending, input)
}
