// The key search: which open call of a thread (document 01: run) hands a key over, the newest first.
#![tactic(auto)]

ghost use Rattle.model.specs.Cells.{threads_are};
ghost use Rattle.search.specs.Searching.{SearchesLent};

use checking::newest::newest_call;
use model::answer::Refusal;
use model::arrays::Threads;
use product::literal::Key;
use threads::place::find;

// What the search answers: the place, 0 for the newest, of the newest open call that hands the key over, or none; or 2,
// no run.
pub type Searched = Result<Option<u16>, Refusal>;

// The search for a key among the open calls of the thread with that number.
pub fn find_key(threads: &Threads, number: u16, key: Key) -> Searched
    ensures { SearchesLent (threads_are threads.now) number key result }
{
    let place = find(threads, number).ok_or(Refusal::NoThread)?;
    Ok(newest_call(&threads[place], key).map(|newest| newest as u16))
}
