// The readers of formula texts: OR, AND, NOT and bracket call each other, as document 01 asks. Those of OR and of AND
// stay two: one for both would take the byte, the join and the next reader, a closure inside the cycle of readers. Each
// leaves the node's list of products in rows that the caller lends.
ghost use Rattle.std.specs.Prelude.{◌≡◌};
ghost use Rattle.product.specs.Sum.{joined};
ghost use Rattle.product.specs.Cells.{sum_of, HoldsSum};
ghost use Rattle.formula.specs.Nodes.{literal, join_and};
ghost use Rattle.formula.specs.Internal.Reader.{key_named};
ghost use Rattle.formula.specs.Internal.Readers.{AtomAt, NotAt, BracketAt, AndAt, OrAt};

use crate::number::{byte_at, read_number};
use crate::text::Issued;
use product::literal::{Key, Literal};
use product::sum;
use product::sum::Rows;

// Document 01: node. A formula that was read: the place after it, and how many products its list has.
#[derive(Clone, Copy)]
pub(crate) struct Node {
    pub(crate) end: usize,
    pub(crate) count: usize,
}

// What a reader reads: a text under some counts of keys, where so many brackets may still be opened, and whether under
// an odd number of NOTs.
#[derive(Clone, Copy)]
pub(crate) struct Reader<'a> {
    pub(crate) text: &'a [u8],
    pub(crate) issued: Issued,
    pub(crate) level: usize,
    pub(crate) odd: bool,
}

impl Reader<'_> {
    // A whole formula: parts joined by `|`.
    #[cycle(readers)]
    pub(crate) fn read_or(&self, at: usize, rows: &mut Rows) -> Option<Node>
        ensures { OrAt self.now.issued self.now.text.now self.now.level self.now.odd result rows.new at }
    {
        let mut left = self.read_and(at, rows)?;
        while byte_at(self.text, left.end) == b'|' {
            let mut right = [[0u32; 8]; 8];
            let part = self.read_and(left.end + 1, &mut right)?;
            left = join(!self.odd, left, rows, part, &right);
        }
        Some(left)
    }

    // Parts joined by `&`.
    #[cycle(readers)]
    fn read_and(&self, at: usize, rows: &mut Rows) -> Option<Node>
        ensures { AndAt self.now.issued self.now.text.now self.now.level self.now.odd result rows.new at }
    {
        let mut left = self.read_not(at, rows)?;
        while byte_at(self.text, left.end) == b'&' {
            let mut right = [[0u32; 8]; 8];
            let part = self.read_not(left.end + 1, &mut right)?;
            left = join(self.odd, left, rows, part, &right);
        }
        Some(left)
    }

    // A key, a bracket or a NOT.
    #[cycle(readers)]
    fn read_not(&self, at: usize, rows: &mut Rows) -> Option<Node>
        ensures { NotAt self.now.issued self.now.text.now self.now.level self.now.odd result rows.new at }
    {
        let b = byte_at(self.text, at);
        if b == b'!' {
            let negated = Reader {
                odd: !self.odd,
                ..*self
            };
            return negated.read_not(at + 1, rows);
        }
        if b == b'(' {
            return self.read_bracket(at + 1, rows);
        }
        self.read_atom(at, rows)
    }

    // A whole formula and its closing bracket, the opening one just read.
    #[cycle(readers)]
    fn read_bracket(&self, at: usize, rows: &mut Rows) -> Option<Node>
        ensures { BracketAt self.now.issued self.now.text.now self.now.level self.now.odd result rows.new at }
    {
        let inside = Reader {
            level: self.level.checked_sub(1)?,
            ..*self
        };
        let inner = inside.read_or(at, rows)?;
        if byte_at(self.text, inner.end) != b')' {
            return None;
        }
        Some(Node {
            end: inner.end + 1,
            ..inner
        })
    }

    // A key that was handed out.
    fn read_atom(&self, at: usize, rows: &mut Rows) -> Option<Node>
        ensures { AtomAt self.now.issued self.now.text.now self.now.odd result rows.new at }
    {
        let letter = *self.text.get(at)?;
        let (number, end) = read_number(self.text, at + 1)?;
        let key = key_named(letter, number)?;
        if !self.issued.has(key) {
            return None;
        }
        let count = sum::single(signed(self.odd, key), rows);
        Some(Node { end, count })
    }
}

// Under an odd number of NOTs a key is barred.
fn signed(odd: bool, key: Key) -> Literal
    ensures { result ≡ literal odd key }
{
    if odd {
        Literal::Barred(key)
    } else {
        Literal::Plain(key)
    }
}

// The key of a letter and a number; none of a letter that is no kind's.
fn key_named(letter: u8, n: u16) -> Option<Key>
    ensures { result ≡ key_named letter n }
{
    match letter {
        b'U' => Some(Key::User(n)),
        b'R' => Some(Key::Thread(n)),
        b'S' => Some(Key::Segment(n)),
        b'D' => Some(Key::Defined(n)),
        _ => None,
    }
}

// A formula, whose products are in the first rows, and the part after it: joined as an OR's or as an AND's. One test
// and no closure: both functions are lent the same five things.
fn join(or: bool, left: Node, rows: &mut Rows, part: Node, right: &Rows) -> Node
    ensures end { result.end ≡ part.end }
    ensures sum { HoldsSum
        (joined (join_and or) (sum_of left.count rows.old) (sum_of part.count right.now))
        rows.new result.count }
{
    let products = *rows;
    let count = if or {
        sum::disjoin(&products, left.count, right, part.count, rows)
    } else {
        sum::conjoin(&products, left.count, right, part.count, rows)
    };
    Node {
        end: part.end,
        count,
    }
}
