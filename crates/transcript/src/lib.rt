// All that the office program prints for a file (document 01: 'Office program'): the file's records, answered one
// after the other from the empty arrays on, a line each; or the file's refusal.
#![tactic(auto)]

mod bytes;
mod lines;

ghost use Rattle.std.specs.Prelude.{◌≤◌, ◌≡◌, Ok, length};
ghost use Rattle.journal.specs.Reading.{verdict_of};
ghost use Rattle.model.specs.Cells.{cells_with};
ghost use Rattle.transcript.specs.Printing.{most_printed, Prints};
ghost use Rattle.transcript.specs.Internal.{Replayed};

use crate::lines::{file_line, line};
use guard::call;
use journal::file::FILE_HEAD;
use journal::reader::{open_file, read};
use model::arrays::{Locks, Makers, Registry, Segments, Threads};

// The most bytes that are printed: 7,280 records are the most of a file, and 20 bytes of a line.
pub const MOST_PRINTED: usize = 145600;

// Puts all that is printed for the file at the buffer's start, and answers how many bytes that is.
pub fn transcript(file: &[u8], buffer: &mut [u8; MOST_PRINTED]) -> usize
    ensures { Prints file.now buffer.old buffer.new result }
{
    if let Err(refusal) = open_file(file) {
        return file_line(buffer, 0, refusal);
    }
    let mut registry = [0u32; 8];
    let mut makers = [0u16; 1024];
    let mut segments = [[[0u16; 8]; 2]; 64];
    let mut locks = [[[0u32; 8]; 8]; 64];
    let mut threads = [[[0u16; 8]; 17]; 64];
    replay(
        file,
        &mut registry,
        &mut makers,
        &mut segments,
        &mut locks,
        &mut threads,
        buffer,
    )
}

// Answers the records of a readable file, and puts their lines at the buffer's start.
#[tactic(auto, using(crate::proofs::AnsweredRecord::text_inside, crate::proofs::AnsweredRecord::entry_further))]
fn replay(
    file: &[u8],
    registry: &mut Registry,
    makers: &mut Makers,
    segments: &mut Segments,
    locks: &mut Locks,
    threads: &mut Threads,
    buffer: &mut [u8],
) -> usize
    requires { (verdict_of file.now ≡ Ok tt) × (most_printed ≤ length buffer.old) }
    ensures { Replayed file.now
        (cells_with registry.old makers.old segments.old locks.old
        threads.old)
        buffer.old buffer.new result }
{
    let mut at = FILE_HEAD;
    let mut place = 0u16;
    let mut used = 0;
    while let Ok(Some(entry)) = read(file, at) {
        let text = &file[entry.start..entry.next];
        let answer = call(
            registry,
            makers,
            segments,
            locks,
            threads,
            entry.fields,
            text,
        );
        used = line(buffer, used, place, entry.fields.letter, answer);
        at = entry.next;
        place += 1;
    }
    used
}
