// The key search for C: a key and the answer are one number each.
ghost use Rattle.std.specs.Prelude.{◌≡◌};
ghost use Rattle.model.specs.Cells.{threads_are};
ghost use Rattle.abi.specs.KeySearch.{search_code, TellsPlace};
ghost use Rattle.abi.specs.Internal.{key_read};

use crate::calls::answer_code;
use model::arrays::Threads;
use product::literal::Key;
use search::{Searched, find_key};

// The place of the thread's newest open call that hands the key over, 0 for the newest and 65535 for none, or a
// refusal's number * 65536. A key's number is kind * 65536 + its own number, with the kinds U 0, R 1, S 2 and D 3.
#[unsafe(no_mangle)]
pub extern "C" fn rotundaaloe_raw_find_key(threads: &Threads, thread: u16, key: u32) -> u32
    ensures { TellsPlace (threads_are threads.now) thread key result }
{
    search_code(find_key(threads, thread, key_read(key)))
}

// The key of a number, as C hands it in: a number of any kind, so no enum. What is no key's is read as a U key, which
// no open call hands over either.
fn key_read(x: u32) -> Key
    ensures { result ≡ key_read x }
{
    let own = (x % 65536) as u16;
    match x / 65536 {
        1 => Key::Thread(own),
        2 => Key::Segment(own),
        3 => Key::Defined(own),
        _ => Key::User(own),
    }
}

// One number for C.
fn search_code(searched: Searched) -> u32
    ensures { result ≡ search_code searched }
{
    match searched {
        Ok(Some(place)) => u32::from(place),
        Ok(None) => 65535,
        Err(refusal) => answer_code(Err(refusal)),
    }
}
