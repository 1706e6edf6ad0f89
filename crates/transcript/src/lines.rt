// The lines that the office program prints (document 01: 'Office program'), byte by byte, in a buffer that the caller
// lends.
ghost use Rattle.std.specs.Prelude.{◌+◌, ◌≤◌};
ghost use Rattle.transcript.specs.Lines.{outcome as outcome_bytes, line as line_of, file_line, LinePut};
ghost use Rattle.transcript.specs.Lines.{most_line, most_file_line};
ghost use Rattle.transcript.specs.Internal.{Put, Room, most_outcome};

use crate::bytes::Output;
use model::answer::Answer;

// The most bytes of a record's line, and of a file's.
const MOST_LINE: usize = 20;

const MOST_FILE_LINE: usize = 11;

// Writes the line of the record at that place from `at` on, and answers the place after it. Where fewer than
// MOST_LINE bytes are left it writes nothing, and the answer is `at`.
pub fn line(buffer: &mut [u8], at: usize, place: u16, letter: u8, answer: Answer) -> usize
    ensures { LinePut most_line buffer.old at (line_of place letter answer) buffer.new result }
{
    if buffer.len().saturating_sub(at) < MOST_LINE {
        return at;
    }
    let mut output = Output { buffer, at };
    output.decimal(place);
    output.put(&[b' ', letter, b' ']);
    output.outcome(answer);
    output.put(b"\n");
    output.at
}

// The same for the line of a file that is refused.
pub fn file_line(buffer: &mut [u8], at: usize, refusal: journal::file::Refusal) -> usize
    ensures { LinePut most_file_line buffer.old at (file_line refusal) buffer.new result }
{
    if buffer.len().saturating_sub(at) < MOST_FILE_LINE {
        return at;
    }
    let mut output = Output { buffer, at };
    output.put(b"file no ");
    output.decimal(u32::from(refusal) as u16);
    output.put(b"\n");
    output.at
}

impl Output<'_> {
    // `ok` and the answer, or `no` and the refusal's two numbers.
    fn outcome(&mut self, answer: Answer)
        requires { Room self.old most_outcome }
        ensures { Put self.old (outcome_bytes answer) self.new × (self.new.at ≤ self.old.at + most_outcome) }
    {
        match answer {
            Ok(n) => {
                self.put(b"ok ");
                self.decimal(n);
            }
            Err(refusal) => {
                self.put(b"no ");
                self.decimal(refusal.number());
                self.put(b" ");
                self.decimal(refusal.second());
            }
        }
    }
}
