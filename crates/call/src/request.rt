// A call's letter and fields as a request.
ghost use Rattle.std.specs.Prelude.{◌≡◌};
ghost use Rattle.call.specs.Calls.{unnamed_zero, decoded_of};
ghost use Rattle.call.specs.Internal.{line_of};

use crate::letters;

// A well formed call, with the fields that its letter names; beside each stands its letter and document 01's word.
// The text of a lock is not in it.
#[derive(Clone, Copy, PartialEq, Eq)]
pub enum Request {
    // U, new user
    NewUser,
    // S, start run: user
    StartThread(u16),
    // E, end run: thread
    EndThread(u16),
    // N, new segment: thread, 0 code or 1 sheet
    NewSegment(u16, u16),
    // K, new D key: thread
    NewKey(u16),
    // G, give key: thread, segment, key
    GiveKey(u16, u16, u16),
    // T, take key: thread, segment, key
    TakeKey(u16, u16, u16),
    // L, lock: thread, segment, operations
    AddLock(u16, u16, u16),
    // D, drop lock: thread, lock
    DropLock(u16, u16),
    // C, call: thread, segment
    CallSegment(u16, u16),
    // R, return: thread
    ReturnCall(u16),
    // A, access: thread, segment, operation
    Access(u16, u16, u16),
}

// A call without its text: its letter and its fields.
#[derive(Clone, Copy, PartialEq, Eq)]
pub struct Fields {
    pub letter: u8,
    pub a: u16,
    pub b: u16,
    pub c: u16,
}

impl Fields {
    // The request of the call whose text has `size` bytes. None, document 01's 18: an unknown letter, an unnamed field
    // that is not 0, or a text where the letter takes none. The answer's number is `decoded_number`, and its values are
    // `decoded_values`.
    #[tactic(auto, using(crate::proofs::TableLines::unknown, crate::proofs::TableLines::known))]
    pub fn decode(self, size: usize) -> Option<Request>
        ensures { result ≡ decoded_of self.letter self.a self.b self.c size }
    {
        let (request, named) = self.line()?;
        let judged = self.unnamed_zero(named) & ((self.letter == letters::ADD_LOCK) | (size == 0));
        judged.then_some(request)
    }

    // The line of document 01's table: the request, and how many of a, b and c it names.
    #[tactic(auto, unfolding(crate::specs::Internal::line_of))]
    fn line(self) -> Option<(Request, u8)>
        ensures { result ≡ line_of self.letter self.a self.b self.c }
    {
        let Fields { letter, a, b, c } = self;
        match letter {
            letters::NEW_USER => Some((Request::NewUser, 0)),
            letters::START_THREAD => Some((Request::StartThread(a), 1)),
            letters::END_THREAD => Some((Request::EndThread(a), 1)),
            letters::NEW_SEGMENT => Some((Request::NewSegment(a, b), 2)),
            letters::NEW_KEY => Some((Request::NewKey(a), 1)),
            letters::GIVE_KEY => Some((Request::GiveKey(a, b, c), 3)),
            letters::TAKE_KEY => Some((Request::TakeKey(a, b, c), 3)),
            letters::ADD_LOCK => Some((Request::AddLock(a, b, c), 3)),
            letters::DROP_LOCK => Some((Request::DropLock(a, b), 2)),
            letters::CALL_SEGMENT => Some((Request::CallSegment(a, b), 2)),
            letters::RETURN_CALL => Some((Request::ReturnCall(a), 1)),
            letters::ACCESS => Some((Request::Access(a, b, c), 3)),
            _ => None,
        }
    }

    // Whether all but the first `named` of the fields are 0.
    fn unnamed_zero(self, named: u8) -> bool
        ensures { result ≡ unnamed_zero named self.a self.b self.c }
    {
        // one number, compared once: with one test for each field the check of a file takes up to 1.5 times as long
        let used = if self.c != 0 {
            3
        } else if self.b != 0 {
            2
        } else if self.a != 0 {
            1
        } else {
            0
        };
        used <= named
    }
}
