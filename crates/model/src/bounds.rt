// Document 01, 'Twelve calls': the most at a time, and how many numbers are handed out. `specs/Limits` has them as
// definitions.

pub const MOST_USERS: u32 = 32;

// Live threads (document 01: live runs).
pub const MOST_THREADS: usize = 64;

pub const MOST_SEGMENTS: usize = 64;

// Defined keys (D keys).
pub const MOST_DEFINED: usize = 1024;

// Keys in a segment's list, its own S key included.
pub const MOST_LISTED: usize = 8;

// Products in all standing locks of a segment.
pub const MOST_STANDING: usize = 8;

// Frames of a thread (open calls of a run).
pub const MOST_FRAMES: usize = 16;

// Thread numbers, and as many lock numbers.
pub const MOST_NUMBERS: u32 = 65536;
