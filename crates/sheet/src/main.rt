// Prints the sheet of the saved image that its argument names, or of the one on standard input, or `refused 5`.
#![tactic(auto)]

use image::FULL_IMAGE;
use std::io::Read;

const NAME: [u8; 5] = *b"sheet";

const HELP: [u8; 395] = *b"usage: sheet [FILE]

Prints the sheet of the saved book in FILE: what is used of its ground, and what is free.
Without FILE, or where it is -, the book is read from standard input. Bytes that are no
saved book print 'refused 5'.

  --help     print this text
  --version  print the version

What cannot be read or written is told on standard error, with the reason. The exit
status is always 0.
";

// One byte more than the longest image, so that a longer input is seen not to be one.
const INPUT: usize = FULL_IMAGE + 1;

// Prints the sheet of what is read.
fn show<R: Read>(rt: &impl Print, errors: &impl Print, from: &mut R) {
    let mut input = [0u8; INPUT];
    let Ok(n) = program::read_full(errors, &NAME, from, &mut input) else {
        return;
    };
    // Holds every sheet, so what is not written is refused for its bytes.
    let mut out = sheet_text::buffer();
    let Ok(bytes) = sheet_text::sheet_of_image(&input[..n], &mut out) else {
        program::write_output(rt, errors, &NAME, b"refused 5\n");
        return;
    };
    program::write_output(rt, errors, &NAME, &out[..bytes]);
}

fn main(rt: HostRuntime) {
    let errors = rt.stderr();
    let Some(o) = program::command_line(&rt, &errors, &NAME, &HELP, false) else {
        return;
    };
    if let Some(mut from) = program::open_input(&rt, &errors, &NAME, o.file) {
        show(&rt, &errors, &mut from);
    }
}
