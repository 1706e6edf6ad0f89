// Appending a record to a file in the caller's buffer (document 01: lent buffer).
ghost use Rattle.std.specs.Prelude.{◌≡◌, ◌+◌, ◌<◌, ◌≤◌, length};
ghost use Rattle.call.specs.Calls.{call_from, most_text};
ghost use Rattle.journal.specs.Format.{record_head_size, file_head_size, count_at};
ghost use Rattle.journal.specs.Reading.{word};
ghost use Rattle.journal.specs.Internal.{most_word};
ghost use Rattle.journal.specs.Appending.{append_answer, with_record, buffer_after, empty_answer, empty_after};

use crate::bytes::{store, store_word, word_at};
use crate::file::{COUNT_AT, FILE_HEAD, MARK, MOST_BYTES, Refusal, VERSION, VERSION_AT, check};
use crate::record::{A_AT, B_AT, C_AT, RECORD_HEAD, TEXT_LENGTH_AT};
use call::request::Fields;

// Writes the file with no record to the buffer's start, and answers its length, or why nothing was written. The
// answer's number is `appended_number`, and its values are `appended_values`.
#[tactic(auto, unfolding(crate::specs::Appending::empty_answer, crate::specs::Format::file_bytes))]
pub fn empty(buffer: &mut [u8]) -> Result<usize, Refusal>
    ensures answer { result ≡ empty_answer buffer.old }
    ensures bytes { buffer.new ≡ empty_after result buffer.old }
{
    if buffer.len() < FILE_HEAD {
        return Err(Refusal::Full);
    }
    store(buffer, 0, MARK);
    store_word(buffer, VERSION_AT, VERSION);
    store_word(buffer, COUNT_AT, 0);
    Ok(FILE_HEAD)
}

// Appends a record to the file in the buffer's first `len` bytes, and answers the file's new length, or why nothing was
// written; numbered by `appended_number`. The length stands beside the buffer, since C lends the two apart.
pub fn append(buffer: &mut [u8], len: usize, fields: Fields, text: &[u8]) -> Result<usize, Refusal>
    ensures answer { result ≡ append_answer buffer.old len (call_from fields text.now) }
    ensures bytes { buffer.new ≡ buffer_after result buffer.old len (call_from fields text.now) }
{
    let length = append_answer(buffer, len, fields, text)?;
    store_record(buffer, len, fields, text);
    Ok(length)
}

// The answer to an append, from the buffer as it is.
#[tactic(auto, unfolding(crate::specs::Appending::append_answer, crate::specs::Reading::verdict_of))]
fn append_answer(buffer: &[u8], len: usize, fields: Fields, text: &[u8]) -> Result<usize, Refusal>
    ensures { result ≡ append_answer buffer.now len (call_from fields text.now) }
{
    if buffer.len() < len {
        return Err(Refusal::Corrupt);
    }
    check(&buffer[..len])?;
    if !fields.fits(text.len()) {
        return Err(Refusal::Corrupt);
    }
    let end = len + RECORD_HEAD + text.len();
    if (buffer.len() < end) | (MOST_BYTES < end) {
        return Err(Refusal::Full);
    }
    Ok(end)
}

// Raises the count, and stores the record after the file.
#[tactic(auto, using(crate::proofs::StoredBytes::stored))]
fn store_record(d: &mut [u8], len: usize, fields: Fields, text: &[u8])
    requires { (file_head_size ≤ len) × (len + record_head_size + length text.now ≤ length d.old)
        × (length text.now ≤ most_text) × (word d.old count_at < most_word) }
    ensures { d.new ≡ with_record d.old len (call_from fields text.now) }
{
    let count = word_at(d, COUNT_AT) + 1;
    store_word(d, COUNT_AT, count);
    d[len] = fields.letter;
    store_word(d, len + A_AT, fields.a);
    store_word(d, len + B_AT, fields.b);
    store_word(d, len + C_AT, fields.c);
    store_word(d, len + TEXT_LENGTH_AT, text.len() as u16);
    store(d, len + RECORD_HEAD, text);
}
