// From a formula text (document 01: lock text) to its products.
ghost use Rattle.std.specs.Prelude.{◌≡◌};
ghost use Rattle.formula.specs.Text.{issued_to};
ghost use Rattle.formula.specs.Outcome.{refusal_number, compiled_of};

use crate::reader::{Node, Reader};
use product::literal::Key;
use product::sum::{MOST_PRODUCTS, Rows};

// How many keys of each kind were handed out: users, runs, segments and D keys.
#[derive(Clone, Copy)]
pub struct Issued {
    pub users: u32,
    pub threads: u32,
    pub segments: u32,
    pub defined: u32,
}

impl Issued {
    // The key was handed out.
    #[tactic(auto, unfolding(crate::specs::Text::issued_to))]
    pub(crate) fn has(self, key: Key) -> bool
        ensures { result ≡ issued_to self key }
    {
        let (number, count) = match key {
            Key::User(n) => (n, self.users),
            Key::Thread(n) => (n, self.threads),
            Key::Segment(n) => (n, self.segments),
            Key::Defined(n) => (n, self.defined),
        };
        u32::from(number) < count
    }
}

// Document 01: misspelt, too wide, void.
#[derive(Clone, Copy, PartialEq, Eq)]
pub enum Refusal {
    Malformed,
    TooWide,
    Unsatisfiable,
}

// Document 01: the whole formula's list of products, as rows, and how many they are. No heap, so no Vec.
#[derive(Clone, Copy)]
pub struct Compiled {
    pub count: usize,
    pub rows: Rows,
}

// Document 01: 1 to 96 bytes, brackets at most 8 deep.
const MOST_BYTES: usize = 96;

const MOST_DEEP: usize = 8;

// The products of a formula text, or the first refusal that applies to it: malformed, too wide, unsatisfiable.
pub fn compile(text: &[u8], issued: Issued) -> Result<Compiled, Refusal>
    ensures { result ≡ compiled_of issued text.now }
{
    if MOST_BYTES < text.len() {
        return Err(Refusal::Malformed);
    }
    let reader = Reader {
        text,
        issued,
        level: MOST_DEEP,
        odd: false,
    };
    let mut rows = [[0u32; 8]; 8];
    let Node { end, count } = reader.read_or(0, &mut rows).ok_or(Refusal::Malformed)?;
    if end < text.len() {
        return Err(Refusal::Malformed);
    }
    if MOST_PRODUCTS < count {
        return Err(Refusal::TooWide);
    }
    if count == 0 {
        return Err(Refusal::Unsatisfiable);
    }
    Ok(Compiled { count, rows })
}

// Document 01's number of a refusal.
impl From<Refusal> for u32 {
    ghost from_gives = { λ refusal number. number ≡ refusal_number refusal };

    fn from(refusal: Refusal) -> u32 {
        match refusal {
            Refusal::Malformed => 11,
            Refusal::TooWide => 12,
            Refusal::Unsatisfiable => 13,
        }
    }
}
