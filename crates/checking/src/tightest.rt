// The rows after the first grant lock's that opens. Request P6: 'The check now looks past the first grant lock that
// opens.'
ghost use Rattle.std.specs.Prelude.{◌≡◌, ◌+◌, ◌<◌, drop};
ghost use Rattle.model.specs.Limits.{most_standing};
ghost use Rattle.checking.specs.Deciding.{keys_of};
ghost use Rattle.checking.specs.Internal.{GrantHead, can_change, decided_from, head_checked, code_checked};

use crate::head::{denied, granted, literals};
use crate::keys::{agrees, literal_in};
use crate::newest::Frames;
use model::arrays::Products;
use model::operations::Operations;

// The number of the answer by the row that decides, of row `from` and those after it, where row `from` is the first
// grant lock's that opens and has the head `first`. A row that can't change the answer isn't opened.
pub(crate) fn decided_after(
    frames: Frames,
    products: &Products,
    operation: u32,
    from: usize,
    first: u32,
) -> u32
    requires { (from < most_standing) × GrantHead first }
    ensures { code_checked result
        ≡ head_checked
        (decided_from (keys_of frames.entry.thread.now) operation first (drop (from + 1) products.now)) }
{
    let mut found = first;
    'decided: {
        'products: for p in from + 1..products.len() {
            let head = products[p][0];
            let operations = Operations { bits: head };
            if operations.has(operation) {
                if can_change(head, found) {
                    for k in (1..=literals(head)).rev() {
                        let literal = literal_in(products[p][k]);
                        if !agrees(frames, literal) {
                            continue 'products;
                        }
                    }
                    if operations.has(Operations::DENY) {
                        break 'decided denied(head);
                    }
                    found = head;
                }
            } else if head == 0 {
                // tested after the operation, which no unused row has
                break 'products;
            }
        }
        granted(found)
    }
}

// Whether a row with that head, if it opens, changes the answer by the grant lock's row with the head `found`: a deny
// lock's does, and a longer one.
fn can_change(head: u32, found: u32) -> bool
    ensures { result ≡ can_change found head }
{
    let operations = Operations { bits: head };
    operations.has(Operations::DENY) | (literals(found) < literals(head))
}
