// What goes from line to line of a script beside the book, the figures sheet and the counts at first, and the output written out.
#![tactic(auto)]

ghost use Rattle.std.specs.Prelude.{◌≡◌, ◌≤◌, length};
ghost use Rattle.console_session.specs.States.{
  Unchanged,
  next_line,
  first_reply,
  first_selected,
  first_sheet,
  first_counts,
  output_space,
  LineFits,
  OutputHolds,
};

use console_input::{LINE, NAME};
use counts::{Counts, LENGTHS};
use image_figures::FIGURES;
use table::POOLS;

// The output is written out once it has more than this.
const WAITING: usize = 65536;

// Room for any answer, and for the line before it: two bytes, the line, and its newline.
const ANSWER: usize = 655360;

const ECHO: usize = LINE + 3;

const OUTPUT: usize = WAITING + ECHO + ANSWER;

// The reply buffer's length at first.
const REPLY_AT_FIRST: usize = 257;

#[derive(Clone, Copy, Debug, PartialEq, Eq)]
pub struct State {
    // The reply buffer's length.
    pub reply_length: usize,
    // The caller says with each call that option 118 is enabled.
    pub selected: bool,
    // How many lines have ended.
    pub lines: u64,
    // How much of the output waits to be written out.
    pub at: usize,
    // Each command is written before its answer.
    pub echo: bool,
    // The output cannot be written.
    pub failed: bool,
}

pub fn first_state(echo: bool) -> State
    ensures { (result.reply_length ≡ first_reply) × (result.selected ≡ first_selected) × (result.lines ≡ 0) × (result.at ≡ 0) × (result.echo ≡ echo) }
{
    State {
        reply_length: REPLY_AT_FIRST,
        selected: false,
        lines: 0,
        at: 0,
        echo,
        failed: false,
    }
}

// The state at the next line.
pub fn next_line(s: State) -> State
    ensures { (result.reply_length ≡ s.reply_length) × (result.selected ≡ s.selected) × (result.lines ≡ next_line s.lines) × (result.at ≡ s.at) × (result.echo ≡ s.echo) }
{
    State {
        lines: s.lines.saturating_add(1),
        ..s
    }
}

// The state with more output.
// Stays: `with_output` and `with_selected` set one field each.
pub fn with_output(s: State, at: usize) -> State
    ensures { (result.at ≡ at) × Unchanged s result }
{
    State { at, ..s }
}

// The state with another length of the reply buffer.
pub fn with_reply_length(s: State, length: u32) -> State
    ensures { (result.reply_length ≡ length) × (result.selected ≡ s.selected) × (result.lines ≡ s.lines) × (result.at ≡ s.at) × (result.echo ≡ s.echo) }
{
    State {
        reply_length: length as usize,
        ..s
    }
}

// The state with option 118 enabled or not.
pub fn with_selected(s: State, selected: bool) -> State
    ensures { (result.reply_length ≡ s.reply_length) × (result.selected ≡ selected) × (result.lines ≡ s.lines) × (result.at ≡ s.at) × (result.echo ≡ s.echo) }
{
    State { selected, ..s }
}

// The figures sheet at first: each row is that of an empty slot.
pub fn first_figures() -> [u8; FIGURES]
    ensures { result ≡ first_sheet }
{
    let mut sheet = [0u8; FIGURES];
    image_figures::fill(&mut sheet, b"", 0, 0);
    sheet
}

// The counts at first: all 0.
pub fn first_counts() -> Counts
    ensures { result ≡ first_counts }
{
    let none = [0u16; LENGTHS];
    [none; POOLS]
}

// OUTPUT

// Space for the output: what may wait, and one command with its answer more.
pub fn output() -> [u8; OUTPUT]
    ensures { output_space ≡ length result }
{
    [0; OUTPUT]
}

// Writes the output out.
pub fn flush(rt: &impl Print, errors: &impl Print, s: State, out: &[u8]) -> State
    requires { s.at ≤ length out.now }
    ensures { (result.at ≡ 0) × Unchanged s result }
{
    let written = program::write_output(rt, errors, &NAME, &out[..s.at]);
    State {
        at: 0,
        failed: !written,
        ..s
    }
}

// Writes the output out before more is read, so that whoever types sees each answer at once, and before it has less room than any answer takes.
pub fn make_room(rt: &impl Print, errors: &impl Print, s: State, reads: bool, out: &[u8]) -> State
    requires { (s.at ≤ length out.now) × OutputHolds out.now }
    ensures { LineFits result.at out.now × Unchanged s result }
{
    if reads || WAITING < s.at {
        return flush(rt, errors, s, out);
    }
    s
}
