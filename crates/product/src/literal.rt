// Keys and literals (document 01: signed keys), how literals compare, and the one number that a cell of a row holds of
// a literal. Only the conversions between literals and numbers know it; a key's own number stands in key sets.
ghost use Rattle.std.specs.Prelude.{◌≡◌, ◌<◌};
ghost use Rattle.product.specs.Atom.{atom_of, sign_of};
ghost use Rattle.product.specs.Product.{before, opposed};
ghost use Rattle.product.specs.Code.{key_at, key_limit, literal_of, Encoded, EncodedKey};

// Document 01: a key is a kind with a 16-bit number: U user, R run, S segment, D defined by a user. Keys are in this
// order, then in that of their numbers.
#[derive(Clone, Copy, PartialEq, Eq, PartialOrd, Ord)]
pub enum Key {
    User(u16),
    Thread(u16),
    Segment(u16),
    Defined(u16),
}

// Document 01: signed key. A key that a key set must have, or must not have.
#[derive(Clone, Copy, PartialEq, Eq)]
pub enum Literal {
    Plain(Key),
    Barred(Key),
}

// How many numbers the keys of a kind have, and where the cells' numbers of each kind begin; those of U keys begin at
// 0.
const KEY_NUMBERS: u32 = 65536;

const THREAD_KEYS: u32 = 65536;

const SEGMENT_KEYS: u32 = 131072;

const DEFINED_KEYS: u32 = 196608;

// How many literals there are.
const LITERALS: u32 = 524288;

// The number of a key in a key set.
impl From<Key> for u32 {
    ghost from_gives = { EncodedKey };

    fn from(key: Key) -> u32 {
        match key {
            Key::User(n) => u32::from(n),
            Key::Thread(n) => u32::from(n) + THREAD_KEYS,
            Key::Segment(n) => u32::from(n) + SEGMENT_KEYS,
            Key::Defined(n) => u32::from(n) + DEFINED_KEYS,
        }
    }
}

// The number that a cell holds of the literal.
impl From<Literal> for u32 {
    ghost from_gives = { Encoded };

    fn from(literal: Literal) -> u32 {
        match literal {
            Literal::Plain(k) => 2 * u32::from(k),
            Literal::Barred(k) => 2 * u32::from(k) + 1,
        }
    }
}

// The literal of a cell's number, whatever it is.
impl From<u32> for Literal {
    ghost from_gives = { λ x l. l ≡ literal_of x };

    fn from(x: u32) -> Literal {
        let number = x % LITERALS;
        let key = key_at(number / 2);
        if number % 2 == 0 {
            Literal::Plain(key)
        } else {
            Literal::Barred(key)
        }
    }
}

// The key of a number that is one: half of what `From<u32>` does for a literal, which takes every number.
fn key_at(c: u32) -> Key
    requires { c < key_limit }
    ensures { result ≡ key_at c }
{
    let number = (c % KEY_NUMBERS) as u16;
    match c / KEY_NUMBERS {
        0 => Key::User(number),
        1 => Key::Thread(number),
        2 => Key::Segment(number),
        _ => Key::Defined(number),
    }
}

impl Literal {
    // The same key, once plain and once barred.
    pub(crate) fn is_opposed_to(self, other: Literal) -> bool
        ensures { result ≡ opposed self other }
    {
        self.key() == other.key() && self != other
    }

    // By the key; plain before barred, which no derive of the two variants is. An `impl Ord` of one line would say five
    // ghost members and two methods more.
    pub(crate) fn is_before(self, other: Literal) -> bool
        ensures { result ≡ before self other }
    {
        (self.key(), self.sign()) < (other.key(), other.sign())
    }

    fn key(self) -> Key
        ensures { result ≡ atom_of self }
    {
        match self {
            Literal::Plain(key) | Literal::Barred(key) => key,
        }
    }

    fn sign(self) -> u8
        ensures { result ≡ sign_of self }
    {
        match self {
            Literal::Plain(_) => 0,
            Literal::Barred(_) => 1,
        }
    }
}
