// Runs a script of calls, and writes what each call answers to standard output. Everything that matters is in the proved libraries.
// Memory is constant: a chunk of the input, one line and a copy of it, the book, the figures sheet, the counts, the reply buffer and the output, each of a fixed size.
#![tactic(auto)]

ghost use Rattle.std.specs.Prelude.{◌≡◌, ◌≤◌, ◌<◌, length, drop};
ghost use Rattle.image_figures.specs.Sheets.{figures_size};
ghost use Rattle.call_spec.specs.Books.{book_of};
ghost use Rattle.console_input.specs.Lines.{line_space};
ghost use Rattle.console_session.specs.States.{AnswerFits, LineFits, OutputHolds, Unchanged};
ghost use Rattle.std.specs.Prelude.{List, ℕ, IfSome};
ghost use Rattle.std.specs.Prelude.{is_some};
ghost use Rattle.call_spec.specs.ImageCalls.{carried_if};
ghost use Rattle.console_words.specs.Octets.{octets_in};
ghost use Rattle.console_script.specs.Commands.{Within, OctetsWithin, octets_at, value_in, longest_reply};
ghost use Rattle.console_commands.specs.Commands.{given, Ran};
ghost use Rattle.console.specs.Runs.{RanLine, passed_over?};
ghost use Rattle.console.specs.InnerRuns.{Echoed, Set};

use console_input::{NAME, Reader};
use console_reason::REASON;
use console_script::Command;
use console_session::State;
use console_words::Octets;
use counts::Counts;
use image::FULL_IMAGE;
use std::io::Read;

const HELP: [u8; 904] = *b"usage: console [--echo] [FILE]

Runs the commands in FILE, one to a line, and prints what each call answers. Without FILE,
or where it is -, the commands are read from standard input.

  --echo     print each command before its answer: its line as read, after '> ';
             lines that are passed over are not printed
  --help     print this text
  --version  print the version

Commands:
  open TERM DEFAULT START PREFIX..    ask, take STATION NOW OPTION [HEX]
  mark NOW PREFIX D                   list, return STATION NOW OPTION
  read OPTION, write ITEM..           save [FORM [older]], load IMAGE, sheet
  whole LENGTH                        figures [SHEET], counts [COUNTS]
  buffer N                            selection on|off

A line that is no command answers 'error line N', and standard error has the reason. What
cannot be read or written is told there too. The exit status is always 0.
";

// How much of the input is read at once, at most.
const CHUNK: usize = 65536;

// A turn of the loop over the input: the state, and what was read.
#[derive(Clone, Copy)]
struct Turn {
    s: State,
    r: Reader,
}

// Where the octets of an option 118 stand in a line: nowhere, if it has none.
fn selection_place(selection: Option<Octets>) -> Octets
    ensures within { (n : ℕ) → IfSome selection (OctetsWithin n) → OctetsWithin n result }
    ensures place { (line : List ℕ) → carried_if (is_some selection) (octets_at line result) ≡ octets_in line selection }
{
    match selection {
        Some(o) => o,
        None => Octets { start: 0, end: 0 },
    }
}

// Runs a command that a line has; the place where the output ends then.
fn run(
    s: State,
    command: Command,
    line: &mut [u8],
    image: &mut [u8],
    image_bytes: &mut usize,
    figures: &mut [u8],
    counts: &mut Counts,
    out: &mut [u8],
) -> usize
    requires answer_fits { AnswerFits s.at out.old × (s.reply_length ≤ longest_reply) × Within (length line.old) command }
    requires figures_len { length figures.old ≡ figures_size }
    ensures upper_bound { result ≤ length out.old }
    ensures ran { Ran (value_in line.old (Some command))
        (given (book_of image.old image_bytes.old figures.old counts.old) s.reply_length s.selected s.lines (drop s.at out.old))
        (book_of image.new image_bytes.new figures.new counts.new) out.old s.at out.new result }
{
    match command {
        Command::Call(c) => {
            let option = c.message.option;
            let selection = selection_place(c.message.selection);
            console_commands::call(
                s,
                c,
                &line[option.start..option.end],
                &line[selection.start..selection.end],
                image,
                image_bytes,
                figures,
                counts,
                out,
            )
        }
        Command::Mark(c) => console_commands::mark(s, c, image, image_bytes, figures, counts, out),
        Command::Open(c) => console_commands::open(
            s,
            c,
            &line[c.from..],
            image,
            image_bytes,
            figures,
            counts,
            out,
        ),
        Command::Load(o) => console_commands::load(
            s,
            &line[o.start..o.end],
            image,
            image_bytes,
            figures,
            counts,
            out,
        ),
        Command::Save(c) => {
            console_commands::save(s, c.form, c.older, image, *image_bytes, counts, out)
        }
        Command::Sheet => console_commands::sheet(s, image, *image_bytes, counts, out),
        Command::Read(o) => console_commands::read(s, &line[o.start..o.end], out),
        Command::Write(c) => console_commands::write(s, &mut line[c.from..], out),
        Command::Figures => console_commands::figures(s, figures, out),
        Command::SetFigures(o) => {
            console_commands::set_figures(s, &line[o.start..o.end], figures, out)
        }
        Command::Counts => console_commands::counts(s, image, *image_bytes, counts, out),
        Command::SetCounts(o) => {
            console_commands::set_counts(s, &line[o.start..o.end], counts, out)
        }
        Command::Whole(c) => {
            console_commands::whole(s, c.length, image, *image_bytes, counts, out)
        }
        Command::Buffer(_) => console_lines::ok(out, s.at),
        Command::Selection(_) => console_lines::ok(out, s.at),
        Command::Nothing => s.at,
    }
}

// Runs what a line says: its command, or it is told that it is none.
fn run_read(
    s: State,
    command: Option<Command>,
    line: &mut [u8],
    image: &mut [u8],
    image_bytes: &mut usize,
    figures: &mut [u8],
    counts: &mut Counts,
    out: &mut [u8],
) -> usize
    requires answer_fits { AnswerFits s.at out.old × (s.reply_length ≤ longest_reply) × IfSome command (Within (length line.old)) }
    requires figures_len { length figures.old ≡ figures_size }
    ensures upper_bound { result ≤ length out.old }
    ensures ran { Ran (value_in line.old command)
        (given (book_of image.old image_bytes.old figures.old counts.old) s.reply_length s.selected s.lines (drop s.at out.old))
        (book_of image.new image_bytes.new figures.new counts.new) out.old s.at out.new result }
{
    match command {
        Some(c) => run(s, c, line, image, image_bytes, figures, counts, out),
        None => console_lines::error(out, s.at, s.lines),
    }
}

// The length of the reply buffer from now on, and whether option 118 is enabled.
fn set_by(s: State, command: Command) -> State
    ensures { (result.at ≡ s.at) × (result.lines ≡ s.lines) × (result.echo ≡ s.echo) × Set (Some command) s result }
{
    if let Command::Buffer(c) = command {
        return console_session::with_reply_length(s, c.length);
    }
    if let Command::Selection(c) = command {
        return console_session::with_selected(s, c.on);
    }
    s
}

// The same of what a line says: a bad line sets nothing.
fn set(s: State, command: Option<Command>) -> State
    ensures { (result.at ≡ s.at) × (result.lines ≡ s.lines) × (result.echo ≡ s.echo) × Set command s result }
{
    match command {
        Some(c) => set_by(s, c),
        None => s,
    }
}

// Whether a command is none: the line is passed over.
fn is_nothing(command: Command) -> bool
    ensures { (words : List ℕ) → passed_over? (value_in words (Some command)) ≡ result }
{
    if let Command::Nothing = command {
        return true;
    }
    false
}

// Whether a line is passed over. A bad one is not.
fn is_passed_over(command: Option<Command>) -> bool
    ensures { (words : List ℕ) → passed_over? (value_in words command) ≡ result }
{
    match command {
        Some(c) => is_nothing(c),
        None => false,
    }
}

// Writes the line of a command before its answer, where that is asked for. A line that is passed over is not written.
fn echo(s: State, command: Option<Command>, line: &[u8], out: &mut [u8]) -> State
    requires { LineFits s.at out.old × (length line.now ≤ line_space) }
    ensures answer_fits { AnswerFits result.at out.old × Unchanged s result }
    ensures echoed { Echoed s.echo command line.now out.old s.at out.new result.at }
{
    if !s.echo {
        return s;
    }
    if is_passed_over(command) {
        return s;
    }
    let a = console_text::text(out, s.at, b"> ");
    let b = console_text::text(out, a, line);
    let c = console_text::text(out, b, b"\n");
    console_session::with_output(s, c)
}

// Says on standard error why a line is no command, where that is the answer from the output's end up to a place.
fn explain(errors: &impl Print, s: State, end: usize, line: &[u8], out: &[u8])
    requires { (s.at ≤ end) × (end ≤ length out.now) }
{
    if !out[s.at..end].starts_with(b"error") {
        return;
    }
    let mut text = [0u8; REASON];
    let n = console_reason::reason(&mut text, s.lines, line);
    program::say(errors, &text[0..n]);
}

// Runs a line without its newline. Octets are written over the words that spell them: the line as it was read is lent beside it.
fn run_line(
    errors: &impl Print,
    s: State,
    line: &mut [u8],
    kept: &[u8],
    image: &mut [u8],
    image_bytes: &mut usize,
    figures: &mut [u8],
    counts: &mut Counts,
    out: &mut [u8],
) -> State
    requires line_fits { LineFits s.at out.old }
    requires kept_value { (kept.now ≡ line.old) × (length kept.now ≤ line_space) }
    requires reply_length_bound { (s.reply_length ≤ longest_reply) × (length figures.old ≡ figures_size) }
    ensures at_in_bounds { (result.at ≤ length out.old) × (result.reply_length ≤ longest_reply) }
    ensures ran_line { RanLine s line.old (book_of image.old image_bytes.old figures.old counts.old) out.old
        result (book_of image.new image_bytes.new figures.new counts.new) out.new }
{
    let command = console_script::read_command(line);
    let begun = echo(console_session::next_line(s), command, kept, out);
    let end = run_read(
        begun,
        command,
        line,
        image,
        image_bytes,
        figures,
        counts,
        out,
    );
    explain(errors, begun, end, kept, out);
    set(console_session::with_output(begun, end), command)
}

// Runs the line if it is whole, unless the output has failed.
fn end_line(
    errors: &impl Print,
    t: Turn,
    line: &mut [u8],
    kept: &mut [u8],
    image: &mut [u8],
    image_bytes: &mut usize,
    figures: &mut [u8],
    counts: &mut Counts,
    out: &mut [u8],
) -> State
    requires pending_in_bounds { t.r.pending ≤ length line.old }
    requires line_fits { LineFits t.s.at out.old }
    requires line_space_value { (line_space ≡ length line.old) × (line_space ≡ length kept.old) }
    requires reply_length_bound { (t.s.reply_length ≤ longest_reply) × (length figures.old ≡ figures_size) }
    ensures { (result.at ≤ length out.old) × (result.reply_length ≤ longest_reply) }
{
    let s = t.s;
    if s.failed {
        return s;
    }
    let r = t.r;
    if r.whole {
        let pending = r.pending;
        let n = console_script::without_return(&line[0..pending]);
        octets::copy(&line[0..n], kept);
        return run_line(
            errors,
            s,
            &mut line[0..n],
            &kept[0..n],
            image,
            image_bytes,
            figures,
            counts,
            out,
        );
    }
    s
}

// How many turns are left after one more.
fn turns_left(turns: u64, s: State, r: Reader) -> u64
    requires { 0 < turns }
    ensures { result < turns }
{
    if s.failed {
        return 0;
    }
    if r.ended {
        return 0;
    }
    turns - 1
}

// A proved loop has to end, and nothing says that the input does: it counts its turns down from a number that no run uses up.
fn run_script<R: Read>(
    rt: &impl Print,
    errors: &impl Print,
    from: &mut R,
    echo: bool,
    input: &mut [u8],
    line: &mut [u8],
    kept: &mut [u8],
    image: &mut [u8],
    figures: &mut [u8],
    out: &mut [u8],
)
    requires line_space_value { (line_space ≡ length line.old) × (line_space ≡ length kept.old) }
    requires figures_len { length figures.old ≡ figures_size }
    requires output_holds { OutputHolds out.old }
{
    let mut s = console_session::first_state(echo);
    let mut r = console_input::first_reader();
    // At first the book is no bytes, which are no image.
    let mut image_bytes: usize = 0;
    let mut counts = console_session::first_counts();
    let mut turns = u64::MAX;
    while 0 < turns {
        s = console_session::make_room(rt, errors, s, r.from == r.to, out);
        r = console_input::go_on(errors, from, r, input, line);
        let t = Turn { s, r };
        s = end_line(
            errors,
            t,
            line,
            kept,
            image,
            &mut image_bytes,
            figures,
            &mut counts,
            out,
        );
        turns = turns_left(turns, s, r);
    }
    console_session::flush(rt, errors, s, out);
}

// Runs what is read, in buffers of its own.
fn run_input<R: Read>(rt: &impl Print, errors: &impl Print, from: &mut R, echo: bool) {
    let mut input = [0u8; CHUNK];
    let mut line = console_input::line();
    let mut kept = console_input::line();
    let mut image = [0u8; FULL_IMAGE];
    let mut figures = console_session::first_figures();
    let mut out = console_session::output();
    run_script(
        rt,
        errors,
        from,
        echo,
        &mut input,
        &mut line,
        &mut kept,
        &mut image,
        &mut figures,
        &mut out,
    );
}

fn main(rt: HostRuntime) {
    let errors = rt.stderr();
    let Some(o) = program::command_line(&rt, &errors, &NAME, &HELP, true) else {
        return;
    };
    if let Some(mut from) = program::open_input(&rt, &errors, &NAME, o.file) {
        run_input(&rt, &errors, &mut from, o.echo);
    }
}
