// A record reader: a file and a cursor in it. Its methods are thin: `check` and `record_at` do the work. Its fields are
// private, so that no reader stands at a record of a file that was not checked.
ghost use Rattle.std.specs.Prelude.{◌≡◌, length};
ghost use Rattle.journal.specs.Reading.{verdict_of, found_at, cursor_opened, cursor_after};

use crate::file::{FILE_HEAD, Refusal, check};
use crate::record::{Entry, record_at};

#[derive(Drop)]
pub struct Reader<'a> {
    src: &'a [u8],
    at: usize,
}

impl<'a> Reader<'a> {
    // A reader of a file that is not opened yet: it stands at the file's end, and finds no record.
    pub fn new(src: &'a [u8]) -> Reader<'a>
        ensures { (result.src ≡ src.entry) × (result.at ≡ length src.now) }
    {
        Reader { src, at: src.len() }
    }

    // Checks the whole file. Where it is readable, the reader then stands at its first record; of a refused one the
    // cursor stays. Numbered by `verdict_number`.
    pub fn open(&mut self) -> Result<(), Refusal>
        ensures { (result ≡ verdict_of self.old.src.now)
            × (self.new.src ≡ self.old.src)
            × (self.new.at ≡ cursor_opened result self.old.at) }
    {
        check(self.src)?;
        self.at = FILE_HEAD;
        Ok(())
    }

    // What stands at the reader's cursor, which moves past a record: a record, None at the end, or Corrupt where there
    // is neither. Numbered by `found_number`.
    pub fn next(&mut self) -> Result<Option<Entry>, Refusal>
        ensures { (result ≡ found_at self.old.src.now self.old.at)
            × (self.new.src ≡ self.old.src)
            × (self.new.at ≡ cursor_after result self.old.at) }
    {
        let found = record_at(self.src, self.at)?;
        if let Some(entry) = found {
            self.at = entry.next;
        }
        Ok(found)
    }
}

// Opens a file and answers the verdict. The parameters of this function and of `read` are plain, since C lends the file
// and the cursor anew with each call.
pub fn open_file(file: &[u8]) -> Result<(), Refusal>
    ensures { result ≡ verdict_of file.now }
{
    Reader::new(file).open()
}

// What a reader of a file that stands at a cursor finds next; for cursors that an opening or a record gave.
pub fn read(file: &[u8], at: usize) -> Result<Option<Entry>, Refusal>
    ensures { result ≡ found_at file.now at }
{
    let mut reader = Reader { src: file, at };
    reader.next()
}
