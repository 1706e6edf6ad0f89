// 16 bits in two bytes, low byte first, and runs of bytes.
ghost use Rattle.std.specs.Prelude.{◌≡◌, ◌+◌, ◌<◌, ◌≤◌, length};
ghost use Rattle.std.proofs.lemmas.List.Edits.{sets};
ghost use Rattle.journal.specs.Format.{word_bytes};
ghost use Rattle.journal.specs.Reading.{word};

pub(crate) fn word_at(s: &[u8], i: usize) -> u16
    requires { i + 1 < length s.now }
    ensures { result ≡ word s.now i }
{
    u16::from_le_bytes([s[i], s[i + 1]])
}

pub(crate) fn store_word(d: &mut [u8], at: usize, word: u16)
    requires { at + 2 ≤ length d.old }
    ensures { d.new ≡ sets d.old at (word_bytes word) }
{
    store(d, at, &word.to_le_bytes());
}

// Stores `s` in `d` from a place on, byte by byte: `copy_from_slice` would be a call of C's `memmove`, which the
// library for C would need from outside.
pub(crate) fn store(d: &mut [u8], at: usize, s: &[u8])
    requires { at + length s.now ≤ length d.old }
    ensures { d.new ≡ sets d.old at s.now }
{
    for (i, byte) in s.iter().enumerate() {
        d[at + i] = *byte;
    }
}
