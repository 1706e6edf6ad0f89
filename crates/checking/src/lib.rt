// The check of document 01, 'Operations and the check': what a segment's standing locks answer to a thread's operation.
#![tactic(auto)]

ghost use Rattle.std.specs.Prelude.{◌≡◌};
ghost use Rattle.checking.specs.Deciding.{check_of, refusal_of};
ghost use Rattle.checking.specs.Internal.{opening_of, head_checked, code_checked};

use crate::head::{NOT_GRANTED, checked_in, denied, literals};
use crate::keys::{agrees, literal_in};
use crate::newest::Frames;
use crate::tightest::decided_after;
use model::answer::Refusal;
use model::arrays::{Products, Thread};
use model::operations::{Operations, is_access};

pub mod head;
pub mod keys;
pub mod newest;
pub mod tightest;

// What the check answers: of the grant locks that open the one whose longest opening product has most literals, the
// lowest of equal ones. `checked_number` and `checked_value` give document 01's number and value for each.
pub type Checked = Result<u16, Ungranted>;

#[derive(Clone, Copy)]
pub enum Ungranted {
    // 14, barred: the lowest deny lock that opens
    Denied(u16),
    // 15, no way in
    NotGranted,
}

impl From<Ungranted> for Refusal {
    ghost from_gives = { λ u r. r ≡ refusal_of u };

    fn from(ungranted: Ungranted) -> Refusal {
        match ungranted {
            Ungranted::Denied(lock) => Refusal::Denied(lock),
            Ungranted::NotGranted => Refusal::NotGranted,
        }
    }
}

// The check of an operation of the thread in those rows, by the locks whose products are in those. No lock stands for
// an operation that isn't 1, 2 or 4.
pub fn check(thread: &Thread, products: &Products, operation: u32) -> Checked
    ensures { result ≡ check_of thread.now products.now operation }
{
    // Asked at two places, `opening` stays a function of its own.
    let code = if is_access(operation) {
        opening(thread, products, operation)
    } else if operation == Operations::EXECUTE {
        opening(thread, products, Operations::EXECUTE)
    } else {
        NOT_GRANTED
    };
    checked_in(code)
}

// The number of the answer by the row that decides: the first deny lock's that opens, else of the grant locks' that
// open the one with most literals. Until a grant lock's opens there is none to compare with.
fn opening(thread: &Thread, products: &Products, operation: u32) -> u32
    ensures { code_checked result ≡ head_checked (opening_of thread.now products.now operation) }
{
    let frames = Frames::of(thread);
    'opened: {
        'products: for p in 0..products.len() {
            let head = products[p][0];
            // The set is in the head's last four bits, and only those are asked for: 1, 2, 4 and 8.
            let operations = Operations { bits: head };
            if operations.has(operation) {
                for k in (1..=literals(head)).rev() {
                    let literal = literal_in(products[p][k]);
                    if !agrees(frames, literal) {
                        continue 'products;
                    }
                }
                if operations.has(Operations::DENY) {
                    break 'opened denied(head);
                }
                break 'opened decided_after(frames, products, operation, p, head);
            }
            if head == 0 {
                // tested after the operation, which no unused row has
                break 'products;
            }
        }
        NOT_GRANTED
    }
}
