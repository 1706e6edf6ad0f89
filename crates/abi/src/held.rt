// Key sets for C: whether one opens a sum, as a number.
ghost use Rattle.std.specs.Prelude.{◌≡◌};
ghost use Rattle.product.specs.Cells.{sum_of};
ghost use Rattle.product.specs.Held.{held_by, opens_sum};
ghost use Rattle.abi.specs.Answers.{bit};

use product::held::opens;
use product::sum::Rows;

// 1 where the key set opens the sum that the first `count` rows hold, else 0. A key's number is kind * 65536 + its
// own number.
#[unsafe(no_mangle)]
pub extern "C" fn rotundaaloe_raw_opens(rows: &Rows, count: usize, keys: &[u32]) -> u32
    ensures { result ≡ bit (opens_sum (held_by keys.now) (sum_of count rows.now)) }
{
    u32::from(opens(rows, count, keys))
}
