// Who edits: the user of the thread (document 01: run) that N, K, G, T, L and D name.
ghost use Rattle.model.specs.Cells.{threads_are};
ghost use Rattle.threads.specs.Editors.{EditorLent};

use crate::place::find;
use model::answer::{Answer, Refusal};
use model::arrays::{Threads, USER};

// The answer is that user. A thread that isn't live is refused.
pub fn editor(threads: &Threads, number: u16) -> Answer
    ensures { EditorLent (threads_are threads.now) number result }
{
    let place = find(threads, number).ok_or(Refusal::NoThread)?;
    Ok(threads[place][0][USER])
}
