// Decimal numbers without leading zeros, at a place of a text.
ghost use Rattle.std.specs.Prelude.{◌≡◌, ◌≤◌, not, ◌&&◌, eqb, get_or, drop, length, Some};
ghost use Rattle.formula.specs.Spelling.{digit_zero};
ghost use Rattle.formula.specs.Internal.Reader.{digit, read_digits, read_number};
ghost use Rattle.formula.specs.Internal.Readers.{NumberReads};

// The byte at a place, 0 beyond the text.
pub(crate) fn byte_at(text: &[u8], at: usize) -> u8
    ensures { result ≡ get_or text.now at 0 }
{
    text.get(at).copied().unwrap_or(0)
}

// The number from a place on and the place after it.
pub(crate) fn read_number(text: &[u8], at: usize) -> Option<(u16, usize)>
    requires { at ≤ length text.now }
    ensures { NumberReads text.now result (read_number (drop at text.now)) }
{
    if begins_number(byte_at(text, at), byte_at(text, at + 1)) {
        read_digits(text, at)
    } else {
        None
    }
}

// A digit, and no other after a 0.
fn begins_number(first: u8, second: u8) -> bool
    ensures { result ≡ digit first && not (eqb first digit_zero && digit second) }
{
    first.is_ascii_digit() && !(first == b'0' && second.is_ascii_digit())
}

// The digits from a place on, where they make a number of 16 bits.
fn read_digits(text: &[u8], at: usize) -> Option<(u16, usize)>
    requires { at ≤ length text.now }
    ensures { NumberReads text.now result (Some (read_digits 0 (drop at text.now))) }
{
    let mut value: u16 = 0;
    for i in at..text.len() {
        let b = text[i];
        if !b.is_ascii_digit() {
            return Some((value, i));
        }
        value = value.checked_mul(10)?.checked_add(u16::from(b - b'0'))?;
    }
    Some((value, text.len()))
}
