// Formula texts (document 01: lock texts) for C: the answer is a number, and the products go into rows that the
// caller lends.
ghost use Rattle.std.specs.Prelude.{◌≡◌};
ghost use Rattle.formula.specs.Outcome.{outcome_of};
ghost use Rattle.abi.specs.Answers.{issued_with, number_in, rows_in};

use formula::text::{Issued, compile};
use product::sum::Rows;

// The number of products, 1 to 8, with their cells in the rows; or the number of a refusal, and then no cell is
// changed.
#[unsafe(no_mangle)]
pub extern "C" fn rotundaaloe_raw_compile(
    text: &[u8],
    users: u32,
    threads: u32,
    segments: u32,
    defined: u32,
    rows: &mut Rows,
) -> u32
    ensures number { result
        ≡ number_in (outcome_of (issued_with users threads segments defined) text.now) }
    ensures cells { rows.new
        ≡ rows_in (outcome_of (issued_with users threads segments defined) text.now) rows.old }
{
    let issued = Issued {
        users,
        threads,
        segments,
        defined,
    };
    match compile(text, issued) {
        Ok(compiled) => {
            let made = compiled.rows;
            *rows = made;
            compiled.count as u32
        }
        Err(refusal) => u32::from(refusal),
    }
}
