// The journal for C: answers are numbers, and what is found or changed goes into what the caller lends.
ghost use Rattle.std.specs.Prelude.{◌≡◌};
ghost use Rattle.call.specs.Calls.{call_with};
ghost use Rattle.journal.specs.Appending.{empty_answer, empty_after};
ghost use Rattle.journal.specs.Verdicts.{appended_number};
ghost use Rattle.abi.specs.Files.{open_number, open_cursor, next_number, next_cursor, next_values};
ghost use Rattle.abi.specs.Files.{append_number, append_buffer, append_size};

use call::request::Fields;
use journal::append::{append, empty};
use journal::file::FILE_HEAD;
use journal::reader::{open_file, read};

// Checks the whole file: 0, and the cursor is the first record's; or the number of its first refusal, and then the
// cursor is not changed.
#[unsafe(no_mangle)]
pub extern "C" fn rotundaaloe_raw_journal_open(file: &[u8], cursor: &mut usize) -> u32
    ensures number { result ≡ open_number file.now }
    ensures cursor { cursor.new ≡ open_cursor file.now cursor.old }
{
    match open_file(file) {
        Ok(()) => {
            *cursor = FILE_HEAD;
            0
        }
        Err(refusal) => u32::from(refusal),
    }
}

// 1 where a record stands at the cursor: its letter, a, b, c, where its text starts and where it ends are then the
// lent values, and the cursor is after it. 0 at the end and 18 where neither stands there, and then neither the
// cursor nor a cell is changed.
#[unsafe(no_mangle)]
pub extern "C" fn rotundaaloe_raw_journal_next(
    file: &[u8],
    cursor: &mut usize,
    values: &mut [u64; 6],
) -> u32
    ensures number { result ≡ next_number file.now cursor.old }
    ensures cursor { cursor.new ≡ next_cursor file.now cursor.old }
    ensures values { values.new
        ≡ next_values file.now cursor.old values.old }
{
    let at = *cursor;
    match read(file, at) {
        Ok(Some(entry)) => {
            let Fields { letter, a, b, c } = entry.fields;
            *values = [
                u64::from(letter),
                u64::from(a),
                u64::from(b),
                u64::from(c),
                entry.start as u64,
                entry.next as u64,
            ];
            *cursor = entry.next;
            1
        }
        Ok(None) => 0,
        Err(refusal) => u32::from(refusal),
    }
}

// 0 and the file with no record at the buffer's start, or 10, and then no byte is changed.
#[unsafe(no_mangle)]
pub extern "C" fn rotundaaloe_raw_journal_empty(buffer: &mut [u8]) -> u32
    ensures number { result ≡ appended_number (empty_answer buffer.old) }
    ensures bytes { buffer.new
        ≡ empty_after (empty_answer buffer.old) buffer.old }
{
    match empty(buffer) {
        Ok(_) => 0,
        Err(refusal) => u32::from(refusal),
    }
}

// 0 and the record appended to the file in the buffer's first `size` bytes, with the file's new size; or the number
// of the refusal, and then neither a byte nor the size is changed.
#[unsafe(no_mangle)]
pub extern "C" fn rotundaaloe_raw_journal_append(
    buffer: &mut [u8],
    size: &mut usize,
    letter: u8,
    a: u16,
    b: u16,
    c: u16,
    text: &[u8],
) -> u32
    ensures number { result
        ≡ append_number buffer.old size.old (call_with letter a b c text.now) }
    ensures bytes { buffer.new
        ≡ append_buffer buffer.old size.old (call_with letter a b c text.now) }
    ensures size { size.new
        ≡ append_size buffer.old size.old (call_with letter a b c text.now) }
{
    let len = *size;
    match append(buffer, len, Fields { letter, a, b, c }, text) {
        Ok(end) => {
            *size = end;
            0
        }
        Err(refusal) => u32::from(refusal),
    }
}
