// The commands of a script: each is its call with the arguments of its line, and the line of its answer in the output.
#![tactic(auto)]

ghost use Rattle.std.specs.Prelude.{◌≡◌, ◌&&◌, ℕ, ◌≤◌, length, drop, List};
ghost use Rattle.image_figures.specs.Sheets.{figures_size};
ghost use Rattle.call_spec.specs.ImageCalls.{carried_if};
ghost use Rattle.call_spec.specs.Books.{book_of};
ghost use Rattle.console_script.specs.Commands.{
  call as call_value,
  mark as mark_value,
  «open» as open_value,
  load as load_value,
  save as save_value,
  sheet as sheet_value,
  figures as figures_value,
  set_figures as set_figures_value,
  counts as counts_value,
  set_counts as set_counts_value,
  whole as whole_value,
  longest_reply,
  counts_size,
  most_prefixes,
  with_prefixes,
};
ghost use Rattle.console_words.specs.Prefixes.{prefixes_of};
ghost use Rattle.std.specs.Prelude.{is_some};
ghost use Rattle.console_session.specs.States.{AnswerFits};
ghost use Rattle.console_commands.specs.Commands.{given, Ran, Read, WroteOption};

use call_open::Terms;
use call_spec::Message;
use console_script::{CallLine, LONGEST_REPLY, MarkLine, OpenLine, OptionCall};
use console_session::State;
use console_words::Octets;
use counts::Counts;
use image::{FULL_IMAGE, Form, HEAD};

// The most prefixes that an open may have.
const PREFIXES: usize = 16;

// The reply buffer.
const REPLY: usize = LONGEST_REPLY as usize;

// Whether the call of a line carries option 118: it is enabled, and the line has one.
fn carried(enabled: bool, selection: Option<Octets>) -> bool
    ensures { result ≡ (enabled && is_some selection) }
{
    enabled && selection.is_some()
}

// ask, take, list, return: STATION NOW OPTION [HEX]
pub fn call(
    s: State,
    c: CallLine,
    option: &[u8],
    selection: &[u8],
    image: &mut [u8],
    image_bytes: &mut usize,
    figures: &mut [u8],
    counts: &mut Counts,
    out: &mut [u8],
) -> usize
    requires { AnswerFits s.at out.old × (s.reply_length ≤ longest_reply) }
    ensures upper_bound { result ≤ length out.old }
    ensures ran { Ran (call_value c.call c.client c.time option.now (carried_if (is_some c.message.selection) selection.now))
        (given (book_of image.old image_bytes.old figures.old counts.old) s.reply_length s.selected s.lines (drop s.at out.old))
        (book_of image.new image_bytes.new figures.new counts.new) out.old s.at out.new result }
{
    let mut reply = [0u8; REPLY];
    let n = s.reply_length;
    let client = c.client;
    let time = c.time;
    let message = Message {
        client,
        time,
        selected: carried(s.selected, c.message.selection),
    };
    let call = c.call;
    match call {
        OptionCall::Ask => {
            let a = call_ask::ask(
                image,
                image_bytes,
                figures,
                counts,
                message,
                option,
                selection,
                &mut reply[0..n],
            );
            console_lines::replied(out, s.at, a.into(), &reply[0..n])
        }
        OptionCall::Take => {
            let a = call_take::take(
                image,
                image_bytes,
                figures,
                counts,
                message,
                option,
                selection,
                &mut reply[0..n],
            );
            console_lines::replied(out, s.at, a.into(), &reply[0..n])
        }
        OptionCall::List => {
            let a = call_list::list(
                image,
                *image_bytes,
                counts,
                client,
                time,
                option,
                &mut reply[0..n],
            );
            console_lines::replied(out, s.at, a.into(), &reply[0..n])
        }
        OptionCall::Return => {
            let a = call_release::release(
                image,
                image_bytes,
                figures,
                counts,
                client,
                time,
                option,
            );
            console_lines::counted(out, s.at, a.into())
        }
    }
}

// NOW PREFIX D
pub fn mark(
    s: State,
    c: MarkLine,
    image: &mut [u8],
    image_bytes: &mut usize,
    figures: &mut [u8],
    counts: &mut Counts,
    out: &mut [u8],
) -> usize
    requires { AnswerFits s.at out.old }
    ensures upper_bound { result ≤ length out.old }
    ensures ran { Ran (mark_value c.time c.prefix.network c.prefix.length c.deprecated)
        (given (book_of image.old image_bytes.old figures.old counts.old) s.reply_length s.selected s.lines (drop s.at out.old))
        (book_of image.new image_bytes.new figures.new counts.new) out.old s.at out.new result }
{
    let a = call_mark::mark(
        image,
        image_bytes,
        figures,
        counts,
        c.prefix.network,
        c.prefix.length as u32,
        c.deprecated,
        c.time,
    );
    console_lines::done(out, s.at, a.into())
}

// TERM DEFAULT START PREFIX..: the words are prefixes.
pub fn open(
    s: State,
    c: OpenLine,
    words: &[u8],
    image: &mut [u8],
    image_bytes: &mut usize,
    figures: &mut [u8],
    counts: &mut Counts,
    out: &mut [u8],
) -> usize
    requires { AnswerFits s.at out.old }
    ensures upper_bound { result ≤ length out.old }
    ensures ran { Ran (with_prefixes (prefixes_of most_prefixes words.now) (open_value c.term c.default_length c.start))
        (given (book_of image.old image_bytes.old figures.old counts.old) s.reply_length s.selected s.lines (drop s.at out.old))
        (book_of image.new image_bytes.new figures.new counts.new) out.old s.at out.new result }
{
    let mut networks = [0u32; PREFIXES];
    let mut lengths = [0u8; PREFIXES];
    let pools = console_words::read_prefixes(words, 0, &mut networks, &mut lengths);
    let Some(n) = pools else {
        return console_lines::error(out, s.at, s.lines);
    };
    let terms = Terms {
        term: c.term,
        default_length: c.default_length,
        start: c.start,
    };
    let a = call_open::open(
        image,
        image_bytes,
        figures,
        counts,
        &networks[0..n],
        &lengths[0..n],
        terms,
    );
    console_lines::done(out, s.at, a.into())
}

// IMAGE
pub fn load(
    s: State,
    saved: &[u8],
    image: &mut [u8],
    image_bytes: &mut usize,
    figures: &mut [u8],
    counts: &mut Counts,
    out: &mut [u8],
) -> usize
    requires { AnswerFits s.at out.old }
    ensures upper_bound { result ≤ length out.old }
    ensures ran { Ran (load_value saved.now)
        (given (book_of image.old image_bytes.old figures.old counts.old) s.reply_length s.selected s.lines (drop s.at out.old))
        (book_of image.new image_bytes.new figures.new counts.new) out.old s.at out.new result }
{
    let a = call_load::load(image, image_bytes, figures, counts, saved);
    console_lines::done(out, s.at, a.into())
}

// "save into a buffer that holds a full book". Neither this nor what follows has the figures sheet.
pub fn save(
    s: State,
    form: u32,
    older: bool,
    image: &[u8],
    image_bytes: usize,
    counts: &Counts,
    out: &mut [u8],
) -> usize
    requires { AnswerFits s.at out.old }
    ensures upper_bound { result ≤ length out.old }
    ensures by_index { (figures : List ℕ) → Ran (save_value form older)
        (given (book_of image.now image_bytes figures counts.now) s.reply_length s.selected s.lines (drop s.at out.old))
        (book_of image.now image_bytes figures counts.now) out.old s.at out.new result }
{
    let mut buffer = [0u8; FULL_IMAGE];
    let a = call_save::save(
        image,
        image_bytes,
        counts,
        Form::from(form),
        older,
        &mut buffer,
    );
    console_lines::written(out, s.at, a.into(), &buffer)
}

// The sheet's rows stand in the output as they are.
pub fn sheet(s: State, image: &[u8], image_bytes: usize, counts: &Counts, out: &mut [u8]) -> usize
    requires { AnswerFits s.at out.old }
    ensures upper_bound { result ≤ length out.old }
    ensures by_index { (figures : List ℕ) → Ran sheet_value
        (given (book_of image.now image_bytes figures counts.now) s.reply_length s.selected s.lines (drop s.at out.old))
        (book_of image.now image_bytes figures counts.now) out.old s.at out.new result }
{
    let at = s.at;
    if let Err(e) = call_query::check(image, image_bytes, counts) {
        return console_lines::refusal(out, at, e.number(), e.place());
    }
    let n = console_lines::least(image_bytes, image.len());
    let left = out.len() - at;
    match call_sheet::sheet(&image[0..n], &mut out[at..]) {
        Ok(a) => at + console_lines::least(a.bytes as usize, left),
        Err(e) => console_lines::refusal(out, at, e.number(), e.place()),
    }
}

// The counts of the pools that have whole free blocks.
pub fn counts(s: State, image: &[u8], image_bytes: usize, counts: &Counts, out: &mut [u8]) -> usize
    requires { AnswerFits s.at out.old }
    ensures upper_bound { result ≤ length out.old }
    ensures by_index { (figures : List ℕ) → Ran counts_value
        (given (book_of image.now image_bytes figures counts.now) s.reply_length s.selected s.lines (drop s.at out.old))
        (book_of image.now image_bytes figures counts.now) out.old s.at out.new result }
{
    if let Err(e) = call_query::check(image, image_bytes, counts) {
        return console_lines::refusal(out, s.at, e.number(), e.place());
    }
    console_lines::counts(out, s.at, &image[HEAD..], *counts)
}

// LENGTH: how many blocks of it are whole.
pub fn whole(
    s: State,
    len: u32,
    image: &[u8],
    image_bytes: usize,
    counts: &Counts,
    out: &mut [u8],
) -> usize
    requires { AnswerFits s.at out.old }
    ensures upper_bound { result ≤ length out.old }
    ensures by_index { (figures : List ℕ) → Ran (whole_value len)
        (given (book_of image.now image_bytes figures counts.now) s.reply_length s.selected s.lines (drop s.at out.old))
        (book_of image.now image_bytes figures counts.now) out.old s.at out.new result }
{
    let a = call_query::whole(image, image_bytes, counts, len);
    console_lines::counted(out, s.at, a.into())
}

// OPTION: what the reader finds.
pub fn read(s: State, octets: &[u8], out: &mut [u8]) -> usize
    requires { AnswerFits s.at out.old }
    ensures upper_bound { result ≤ length out.old }
    ensures read { Read out.old s.at out.new result }
{
    let at = s.at;
    let n = console_lines::read(&mut out[at..], 0, octets);
    at + n
}

// The words that `read` prints, made into an option.
pub fn write(s: State, words: &mut [u8], out: &mut [u8]) -> usize
    requires { AnswerFits s.at out.old × (s.reply_length ≤ longest_reply) }
    ensures upper_bound { result ≤ length out.old }
    ensures wrote_option { WroteOption s.lines s.reply_length out.old s.at out.new result }
{
    let mut buffer = [0u8; REPLY];
    let n = s.reply_length;
    match console_write::write(words, &mut buffer[0..n]) {
        None => console_lines::error(out, s.at, s.lines),
        Some(a) => console_lines::written(out, s.at, a.into(), &buffer[0..n]),
    }
}

// The figures sheet, which is no part of the image.
pub fn figures(s: State, sheet: &[u8], out: &mut [u8]) -> usize
    requires { AnswerFits s.at out.old × (length sheet.now ≡ figures_size) }
    ensures upper_bound { result ≤ length out.old }
    ensures by_index { (image : List ℕ) (bytes : ℕ) (counts : List (List ℕ)) → Ran figures_value
        (given (book_of image bytes sheet.now counts) s.reply_length s.selected s.lines (drop s.at out.old))
        (book_of image bytes sheet.now counts) out.old s.at out.new result }
{
    console_lines::figures_sheet(out, s.at, sheet)
}

// SHEET: as many bytes as a figures sheet has, which become the sheet.
pub fn set_figures(s: State, octets: &[u8], sheet: &mut [u8], out: &mut [u8]) -> usize
    requires { AnswerFits s.at out.old × (length octets.now ≡ figures_size) × (length sheet.old ≡ figures_size) }
    ensures upper_bound { result ≤ length out.old }
    ensures by_index { (image : List ℕ) (bytes : ℕ) (counts : List (List ℕ)) → Ran (set_figures_value octets.now)
        (given (book_of image bytes sheet.old counts) s.reply_length s.selected s.lines (drop s.at out.old))
        (book_of image bytes sheet.new counts) out.old s.at out.new result }
{
    octets::copy(octets, sheet);
    console_lines::ok(out, s.at)
}

// COUNTS: as many bytes as counts have, which become the counts.
pub fn set_counts(s: State, octets: &[u8], counts: &mut Counts, out: &mut [u8]) -> usize
    requires { AnswerFits s.at out.old × (length octets.now ≡ counts_size) }
    ensures upper_bound { result ≤ length out.old }
    ensures by_index { (image : List ℕ) (bytes : ℕ) (figures : List ℕ) → Ran (set_counts_value octets.now)
        (given (book_of image bytes figures counts.old) s.reply_length s.selected s.lines (drop s.at out.old))
        (book_of image bytes figures counts.new) out.old s.at out.new result }
{
    *counts = console_script::counts_in(octets);
    console_lines::ok(out, s.at)
}
