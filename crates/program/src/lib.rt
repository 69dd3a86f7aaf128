// What the programs have in common: what their command line asks for, the input that it names, and what they say on standard error. Their exit status is always 0, so that
// standard error is where a failure shows.
#![tactic(auto)]

ghost use Rattle.std.specs.Prelude.{◌≤◌, length, IfOk};

use either::{Either, Left, Right};
use std::env::{Env, FillError};
use std::fs::Files;
use std::io::{ErrorKind, Read, Write};
use std::{fs, io, str};

// The version of the repository; include/flockdrift.h has the same.
const VERSION: [u8; 18] = *b"flockdrift 0.16.0\n";

// Room for an argument: any path, and the 0 that ends it.
const ARGUMENT: usize = 4096;

// Room for the reason of an error.
const REASON: usize = 512;

// How a program is to run: whether commands are echoed, and the number of the argument that names its input, if one does.
#[derive(Clone, Copy, Debug, PartialEq, Eq)]
pub struct Options {
    pub echo: bool,
    pub file: Option<usize>,
}

// What an argument is.
#[derive(Clone, Copy, Debug, PartialEq, Eq)]
enum Argument {
    File,
    Echo,
    Help,
    Version,
}

// A read that failed, as was said then.
#[derive(Clone, Copy, Debug, PartialEq, Eq)]
pub struct ReadFailed;

// STANDARD ERROR

// Says a text. What cannot be said is left out: there is no other place to say it.
pub fn say(errors: &impl Print, text: &[u8]) {
    let _ = errors.write_all(text);
}

// Where the system's own words end in an error's text, which zeros follow: the error's number stands behind them, as ` (os error 2)`.
fn words_end(text: &[u8]) -> usize
    ensures { result ≤ length text.now }
{
    let end = octets::find(text, 0, 0);
    let number = octets::find(&text[..end], 0, b'(');
    if 0 < number && number < end {
        number - 1
    } else {
        end
    }
}

// Says what cannot be done, and why.
fn fail(errors: &impl Print, name: &[u8], what: &[u8], error: io::Error) {
    let mut text = [0u8; REASON];
    let mut to = &mut text[..];
    let _ = write!(to, "{error}");
    let n = words_end(&text);
    say(errors, name);
    say(errors, what);
    say(errors, b": ");
    say(errors, &text[..n]);
    say(errors, b"\n");
}

// Says that an argument is none, and how the program is called: the first line of its help.
fn complain(errors: &impl Print, name: &[u8], what: &[u8], word: &[u8], help: &[u8]) {
    let end = octets::find(help, 0, b'\n');
    say(errors, name);
    say(errors, what);
    say(errors, word);
    say(errors, b"\n");
    say(errors, &help[0..end]);
    say(errors, b"\n");
}

// Says that a read has just failed, and why.
pub fn unreadable(errors: &impl Print, name: &[u8], error: io::Error) {
    fail(errors, name, b": the input cannot be read", error);
}

// Says that a write has just failed, and why.
pub fn unwritable(errors: &impl Print, name: &[u8], error: io::Error) {
    fail(errors, name, b": the output cannot be written", error);
}

// STANDARD OUTPUT

// Writes a text out; whether all of it is written.
pub fn write_output(rt: &impl Print, errors: &impl Print, name: &[u8], text: &[u8]) -> bool {
    match rt.write_all(text) {
        Ok(()) => true,
        Err(error) => {
            unwritable(errors, name, error);
            false
        }
    }
}

// ARGUMENTS

// A word that does not begin with `-` names a file, and `-` alone stands for standard input.
fn is_file(word: &[u8]) -> bool {
    if word.len() < 2 {
        return true;
    }
    word[0] != b'-'
}

fn read_argument(word: &[u8], echoes: bool) -> Option<Argument> {
    if is_file(word) {
        return Some(Argument::File);
    }
    match word {
        b"--help" => Some(Argument::Help),
        b"--version" => Some(Argument::Version),
        b"--echo" if echoes => Some(Argument::Echo),
        _ => None,
    }
}

// The options with the argument of this number; or a text is written, and all is done.
fn with_argument(
    rt: &impl Print,
    errors: &impl Print,
    o: Options,
    i: usize,
    word: &[u8],
    name: &[u8],
    help: &[u8],
    echoes: bool,
) -> Option<Options> {
    match read_argument(word, echoes) {
        Some(Argument::File) => {
            if o.file.is_some() {
                complain(errors, name, b": no more than one file: ", word, help);
                return None;
            }
            Some(Options { file: Some(i), ..o })
        }
        Some(Argument::Echo) => Some(Options { echo: true, ..o }),
        Some(Argument::Help) => {
            write_output(rt, errors, name, help);
            None
        }
        Some(Argument::Version) => {
            write_output(rt, errors, name, &VERSION);
            None
        }
        None => {
            complain(errors, name, b": no such option: ", word, help);
            None
        }
    }
}

// What the command line asks of the program of this name; none where it is no command line, or asks for a text only, and all is done.
// The first line of the program's help says how it is called; not every program can echo.
pub fn command_line(
    rt: &(impl Env + Print),
    errors: &impl Print,
    name: &[u8],
    help: &[u8],
    echoes: bool,
) -> Option<Options> {
    let mut o = Options {
        echo: false,
        file: None,
    };
    let mut word = [0u8; ARGUMENT];
    for i in 1..usize::MAX {
        match rt.arg(i, &mut word) {
            Ok(n) => o = with_argument(rt, errors, o, i, &word[..n], name, help, echoes)?,
            Err(FillError::NotPresent) => return Some(o),
            Err(FillError::TooLong) => {
                say(errors, name);
                say(errors, b": an argument: File name too long\n");
                return None;
            }
        }
    }
    Some(o)
}

// INPUT

// The file of this name.
fn open_file<R: Files>(rt: &R, path: &[u8]) -> io::Result<R::File> {
    match str::from_utf8(path) {
        Ok(path) => fs::open(rt, path),
        Err(_) => Err(io::Error::new(ErrorKind::InvalidInput, "the name is no UTF-8")),
    }
}

// The input that the argument of this number names, or standard input; none where the file cannot be opened, as is said then.
pub fn open_input<R: Env + Files + io::Input>(
    rt: &R,
    errors: &impl Print,
    name: &[u8],
    file: Option<usize>,
) -> Option<Either<R::File, R::Reader>> {
    let Some(i) = file else {
        return Some(Right(rt.reader()));
    };
    let mut word = [0u8; ARGUMENT];
    let n = rt.arg(i, &mut word).unwrap_or(0);
    let path = &word[..n];
    if path == b"-".as_slice() {
        return Some(Right(rt.reader()));
    }
    match open_file(rt, path) {
        Ok(f) => Some(Left(f)),
        Err(error) => {
            say(errors, name);
            fail(errors, b": ", path, error);
            None
        }
    }
}

// Reads once; no bytes are the end of the input. Where it cannot be read, that is said.
pub fn read_some<R: Read>(
    errors: &impl Print,
    name: &[u8],
    from: &mut R,
    buf: &mut [u8],
) -> Result<usize, ReadFailed>
    ensures { IfOk result (λ n. n ≤ length buf.old) }
{
    match from.read(buf) {
        Ok(n) => Ok(n),
        Err(error) => {
            unreadable(errors, name, error);
            Err(ReadFailed)
        }
    }
}

// Reads until the buffer is full or the input ends.
pub fn read_full<R: Read>(
    errors: &impl Print,
    name: &[u8],
    from: &mut R,
    buf: &mut [u8],
) -> Result<usize, ReadFailed>
    ensures { IfOk result (λ n. n ≤ length buf.old) }
{
    let mut n = 0;
    // Stays: a `for` is no plainer: each turn goes on by as many bytes as the read before it gave.
    while n < buf.len() {
        let more = read_some(errors, name, from, &mut buf[n..])?;
        if more == 0 {
            return Ok(n);
        }
        n += more;
    }
    Ok(n)
}
