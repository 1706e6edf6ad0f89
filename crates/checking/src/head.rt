// What the head of a product row says: how many literals the row has, and what the check answers where it decides.
ghost use Rattle.std.specs.Prelude.{◌≡◌, true};
ghost use Rattle.model.specs.Operations.{deny, shares};
ghost use Rattle.checking.specs.Internal.{Literals, GrantHead, head_checked, code_checked};

use crate::{Checked, Ungranted};
use model::arrays::{LITERAL_COUNTS, LITERAL_UNIT, LOCK_UNIT};

pub(crate) fn literals(head: u32) -> usize
    ensures { Literals head result }
{
    (head / LITERAL_UNIT % LITERAL_COUNTS) as usize
}

// An answer as one number: a grant lock's own, a deny lock's from here on, and one for none. It is kept for speed:
// tried as a `Checked`, which goes through memory, a check takes 11 instructions more, and an A more than it ever took.
const DENIED: u32 = 65536;

pub(crate) const NOT_GRANTED: u32 = 131072;

// No `From`: only such a number is read so.
pub(crate) fn checked_in(code: u32) -> Checked
    ensures { result ≡ code_checked code }
{
    if code < DENIED {
        return Ok(code as u16);
    }
    if NOT_GRANTED <= code {
        return Err(Ungranted::NotGranted);
    }
    Err(Ungranted::Denied((code - DENIED) as u16))
}

// The number of the answer where the row with that head decides, as a deny lock's or as a grant lock's.
pub(crate) fn denied(head: u32) -> u32
    requires { shares head deny ≡ true }
    ensures { code_checked result ≡ head_checked head }
{
    DENIED + head / LOCK_UNIT
}

pub(crate) fn granted(head: u32) -> u32
    requires { GrantHead head }
    ensures { code_checked result ≡ head_checked head }
{
    head / LOCK_UNIT
}
