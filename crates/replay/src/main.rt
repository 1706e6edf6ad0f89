// The office program (document 01): reads a journal (document 01: desk file) from standard input, and prints a line
// for each of its records, or the file's refusal.
#![tactic(auto)]

ghost use Rattle.std.specs.Prelude.{◌≤◌, IfOk, length};

use std::env::{Env, FillError};
use std::io;
use std::io::{Read, Stderr, Write};
use transcript::{MOST_PRINTED, transcript};

// One byte more than the most of a file: a longer one prints the same as its first 65,536 bytes (`Enough` of
// `transcript`).
const MOST_READ: usize = 65536;

// Of a longer argument no letter is shown.
const MOST_SHOWN: usize = 4096;

fn main(rt: HostRuntime) {
    tell_ignored(&rt);
    let mut errors = rt.stderr();
    let mut input = [0u8; MOST_READ];
    let Ok(size) = read_full(&rt, &mut input) else {
        let _told = errors.write_all(b"standard input can't be read\n");
        return;
    };
    let mut output = [0u8; MOST_PRINTED];
    let printed = transcript(&input[..size], &mut output);
    let mut out = rt.stdout();
    if out.write_all(&output[..printed]).is_err() {
        let _told = errors.write_all(b"standard output can't be written\n");
    }
}

// Reads until the buffer is full or the input ends, and answers how many bytes it put at the buffer's start. The
// library reads to the input's end into a Vec alone.
fn read_full(rt: &HostRuntime, buffer: &mut [u8]) -> io::Result<usize>
    ensures { IfOk result (λ n. n ≤ length buffer.new) }
{
    let mut input = rt.stdin();
    let mut done = 0;
    while done < buffer.len() {
        let n = input.read(&mut buffer[done..])?;
        if n == 0 {
            break;
        }
        done += n;
    }
    Ok(done)
}

// The arguments, which the program doesn't take, are named on standard error.
fn tell_ignored(rt: &HostRuntime) {
    let mut errors = rt.stderr();
    for i in 1..usize::MAX {
        let mut name = [0u8; MOST_SHOWN];
        match rt.arg(i, &mut name) {
            Ok(length) => tell(&mut errors, &mut name[..length]),
            Err(FillError::TooLong) => tell(&mut errors, &mut name[..0]),
            Err(FillError::NotPresent) => break,
        }
    }
}

fn tell(errors: &mut Stderr, name: &mut [u8]) {
    make_plain(name);
    let _told = errors.write_all(b"replay reads standard input alone, and ignores the argument: ");
    let _told = errors.write_all(name);
    let _told = errors.write_all(b"\n");
}

// No byte that a terminal takes for a command.
fn make_plain(text: &mut [u8]) {
    for byte in text.iter_mut() {
        if !(b' '..=b'~').contains(byte) {
            *byte = b'?';
        }
    }
}
