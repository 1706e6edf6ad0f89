// The literal (document 01: signed key) of a cell, and whether the key set of a thread (run) agrees with it.
ghost use Rattle.std.specs.Prelude.{◌≡◌, true};
ghost use Rattle.product.specs.Atom.{agrees, atom_of};
ghost use Rattle.model.specs.Cells.{key_in, literal_in};
ghost use Rattle.checking.specs.Deciding.{keys_of};
ghost use Rattle.checking.specs.Internal.{own_key, listable};

use crate::newest::Frames;
use model::arrays::{
    BARRED_LISTED, BARRED_OWN, DEFINED_CODES, LISTED_CELLS, NUMBER, THREAD_CELLS, USER,
};
use product::literal::{Key, Literal};

// The literal that a cell of a product row stands for. Its sign is said case by case: put on by a function of the sign
// and the key it isn't compiled away, and the check takes 120 instructions for 86.
pub fn literal_in(x: u32) -> Literal
    ensures { result ≡ literal_in x }
{
    if x < BARRED_LISTED {
        Literal::Plain(listed(x as u16))
    } else if x < LISTED_CELLS {
        Literal::Barred(listed((x - BARRED_LISTED) as u16))
    } else if x / BARRED_OWN % 2 == 0 {
        Literal::Plain(own(x))
    } else {
        Literal::Barred(own(x))
    }
}

// The key with that code in key lists.
fn listed(code: u16) -> Key
    ensures { result ≡ key_in code }
{
    if code < DEFINED_CODES {
        Key::Segment(code)
    } else {
        Key::Defined(code - DEFINED_CODES)
    }
}

// The U or R key of a cell, whatever its sign.
fn own(x: u32) -> Key
    ensures { result ≡ own_key x }
{
    let number = (x % LISTED_CELLS) as u16;
    if x < THREAD_CELLS {
        Key::User(number)
    } else {
        Key::Thread(number)
    }
}

// Whether the thread's key set agrees with the literal: a plain key is in it, a barred one is not.
pub(crate) fn agrees(frames: Frames, literal: Literal) -> bool
    requires { listable (atom_of literal) ≡ true }
    ensures { result ≡ agrees (keys_of frames.entry.thread.now) literal }
{
    match literal {
        Literal::Plain(key) => is_held(frames, key),
        Literal::Barred(key) => !is_held(frames, key),
    }
}

// Whether the key is in that set: its U and R keys are the user's and the thread's own, its S and D keys those that the
// frames hand over, asked for by their code in a key list.
fn is_held(frames: Frames, key: Key) -> bool
    requires { listable key ≡ true }
    ensures { result ≡ keys_of frames.entry.thread.now key }
{
    let code = match key {
        Key::User(n) => return frames.thread[0][USER] == n,
        Key::Thread(n) => return frames.thread[0][NUMBER] == n,
        Key::Segment(n) => n,
        Key::Defined(n) => n + DEFINED_CODES,
    };
    frames.newest_row(code).is_some()
}
