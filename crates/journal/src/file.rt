// A whole file (document 01: desk file): whether it is readable.
ghost use Rattle.std.specs.Prelude.{◌≡◌, ◌≤◌, length};
ghost use Rattle.journal.specs.Format.{file_head_size, count_at};
ghost use Rattle.journal.specs.Verdicts.{refusal_number};
ghost use Rattle.journal.specs.Reading.{word, whole_from, verdict_of};

use crate::bytes::word_at;
use crate::record::record_size;

// Document 01: full, not a desk file, other version, broken file.
#[derive(Clone, Copy, PartialEq, Eq)]
pub enum Refusal {
    Full,
    NotJournal,
    OtherVersion,
    Corrupt,
}

// Document 01's number of a refusal.
impl From<Refusal> for u32 {
    ghost from_gives = { λ refusal n. n ≡ refusal_number refusal };

    fn from(refusal: Refusal) -> u32 {
        match refusal {
            Refusal::Full => 10,
            Refusal::NotJournal => 16,
            Refusal::OtherVersion => 17,
            Refusal::Corrupt => 18,
        }
    }
}

// The bytes before the first record: the mark `KLD`, the version and the count. The first record's cursor.
pub const FILE_HEAD: usize = 7;

pub(crate) const MARK: &[u8; 3] = b"KLD";

// Where the version and the record count stand in it, right after the mark and each other.
pub(crate) const VERSION_AT: usize = 3;

pub(crate) const COUNT_AT: usize = 5;

// The most bytes of a file.
pub(crate) const MOST_BYTES: usize = 65535;

// The version.
pub(crate) const VERSION: u16 = 2;

// Ok where the file is readable, or its first refusal. The answer's number is `verdict_number`, and its values are
// `verdict_values`.
#[tactic(auto, unfolding(crate::specs::Reading::verdict_of))]
pub fn check(file: &[u8]) -> Result<(), Refusal>
    ensures { result ≡ verdict_of file.now }
{
    if !file.starts_with(MARK) {
        return Err(Refusal::NotJournal);
    }
    if file.len() < FILE_HEAD {
        return Err(Refusal::Corrupt);
    }
    if word_at(file, VERSION_AT) != VERSION {
        return Err(Refusal::OtherVersion);
    }
    if MOST_BYTES < file.len() {
        return Err(Refusal::Corrupt);
    }
    if !records_fill(file) {
        return Err(Refusal::Corrupt);
    }
    Ok(())
}

// Whether the count's records, from the first on, fill the file exactly.
#[tactic(auto, unfolding(crate::specs::Reading::whole_from, crate::specs::Internal::size_at, crate::specs::Reading::whole_at))]
fn records_fill(file: &[u8]) -> bool
    requires { file_head_size ≤ length file.now }
    ensures { result ≡ whole_from (word file.now count_at) file.now file_head_size }
{
    let mut at = FILE_HEAD;
    for _ in 0..word_at(file, COUNT_AT) {
        let Some(size) = record_size(file, at) else {
            return false;
        };
        at += size;
    }
    at == file.len()
}
