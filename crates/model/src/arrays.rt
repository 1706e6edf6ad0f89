// The arrays that the host lends, which hold the protection state (document 01: desk), and the places of their cells.
// What they hold is said in `specs/Cells`. C lends them one by one, as arrays of numbers: so functions take one by one
// those that they need, and in a cell a kind, a key's code or a set of operations is a number.

pub type Row = [u16; 8];

// Counts of what was handed out.
pub type Registry = [u32; 8];

// The maker of each defined key (document 01: D key).
pub type Makers = [u16; 1024];

// A segment, code or sheet: its owner and kind, and its key list.
pub type Segment = [[u16; 8]; 2];

pub type Segments = [[[u16; 8]; 2]; 64];

// The products of a segment's standing locks.
pub type Products = [[u32; 8]; 8];

pub type Locks = [[[u32; 8]; 8]; 64];

// A thread (document 01: run): its number, user and count of frames (open calls), and the keys that each hands over.
pub type Thread = [[u16; 8]; 17];

pub type Threads = [[[u16; 8]; 17]; 64];

// In the registry: how many of each were handed out.
pub const USERS: usize = 0;

pub const THREADS: usize = 1;

pub const SEGMENTS: usize = 2;

pub const DEFINED: usize = 3;

pub const LOCKS: usize = 4;

// In row 0 of a segment.
pub const OWNER: usize = 0;

pub const KIND: usize = 1;

// In row 0 of a thread; its frames (document 01: open calls) stand in the rows after it.
pub const NUMBER: usize = 0;

pub const USER: usize = 1;

pub const FRAMES: usize = 2;

pub const LIVE: usize = 3;

// In a key list: a segment's key is its number, a defined key's code is this much more than its number, and a cell
// may have no key.
pub const DEFINED_CODES: u16 = 64;

pub const NO_KEY: u16 = 65535;

// In the first cell of a product row: what a lock number and a literal count for, and how many numbers of literals
// there are; the operations stand below both.
pub const LOCK_UNIT: u32 = 65536;

pub const LITERAL_UNIT: u32 = 16;

pub const LITERAL_COUNTS: u32 = 8;

// In a literal's cell: a key of a list has its code, and this much more where it is barred; U and R keys begin beyond
// those, and have this much more where they are barred.
pub const BARRED_LISTED: u32 = 32768;

pub const LISTED_CELLS: u32 = 65536;

pub const USER_CELLS: u32 = 131072;

pub const THREAD_CELLS: u32 = 262144;

pub const BARRED_OWN: u32 = 65536;
