// The record at a cursor (document 01: record): its letter, fields and text.
ghost use Rattle.std.specs.Prelude.{◌≡◌, ◌+◌, ◌≤◌, length};
ghost use Rattle.journal.specs.Format.{record_head_size};
ghost use Rattle.journal.specs.Reading.{fields_of, found_at};
ghost use Rattle.journal.specs.Internal.{size_at};

use crate::bytes::word_at;
use crate::file::Refusal;
use call::request::Fields;

// A record's letter and fields, where its text starts, and the cursor after the record, where its text ends.
#[derive(Clone, Copy, PartialEq, Eq)]
pub struct Entry {
    pub fields: Fields,
    pub start: usize,
    pub next: usize,
}

// Where the fields a, b, c, the text length and the text stand in a record.
pub(crate) const A_AT: usize = 1;

pub(crate) const B_AT: usize = 3;

pub(crate) const C_AT: usize = 5;

pub(crate) const TEXT_LENGTH_AT: usize = 7;

pub(crate) const RECORD_HEAD: usize = 9;

// What stands at a cursor of a file, for any bytes and any cursor: a record, None at the end, or Corrupt, document 01's
// 18, where there is neither. The answer's number is `found_number`, and its values are `found_values`.
#[tactic(auto, unfolding(crate::specs::Reading::found_at, crate::specs::Internal::size_at, crate::specs::Reading::whole_at))]
pub(crate) fn record_at(file: &[u8], at: usize) -> Result<Option<Entry>, Refusal>
    ensures { result ≡ found_at file.now at }
{
    if file.len() <= at {
        return Ok(None);
    }
    let size = record_size(file, at).ok_or(Refusal::Corrupt)?;
    let fields = fields_at(file, at);
    let start = at + RECORD_HEAD;
    let next = at + size;
    Ok(Some(Entry {
        fields,
        start,
        next,
    }))
}

// The bytes of the whole record at a cursor, if there is one.
#[tactic(auto, unfolding(crate::specs::Internal::size_at, crate::specs::Reading::whole_at))]
pub(crate) fn record_size(file: &[u8], at: usize) -> Option<usize>
    ensures { result ≡ size_at file.now at }
{
    if file.len() < RECORD_HEAD || file.len() - RECORD_HEAD < at {
        return None;
    }
    let text = word_at(file, at + TEXT_LENGTH_AT) as usize;
    if !fields_at(file, at).fits(text) {
        return None;
    }
    let size = RECORD_HEAD + text;
    if file.len() < at + size {
        return None;
    }
    Some(size)
}

// The letter and fields of the record head at a cursor.
fn fields_at(file: &[u8], at: usize) -> Fields
    requires { at + record_head_size ≤ length file.now }
    ensures { result ≡ fields_of file.now at }
{
    Fields {
        letter: file[at],
        a: word_at(file, at + A_AT),
        b: word_at(file, at + B_AT),
        c: word_at(file, at + C_AT),
    }
}
