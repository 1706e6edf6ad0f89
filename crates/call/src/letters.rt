// Document 01, 'Twelve calls': the letters, each by the name of its request. They are bytes and no enum, since a file
// or C may hold any byte; what a byte means is a `Request`.
pub const NEW_USER: u8 = b'U';

pub const START_THREAD: u8 = b'S';

pub const END_THREAD: u8 = b'E';

pub const NEW_SEGMENT: u8 = b'N';

pub const NEW_KEY: u8 = b'K';

pub const GIVE_KEY: u8 = b'G';

pub const TAKE_KEY: u8 = b'T';

pub const ADD_LOCK: u8 = b'L';

pub const DROP_LOCK: u8 = b'D';

pub const CALL_SEGMENT: u8 = b'C';

pub const RETURN_CALL: u8 = b'R';

pub const ACCESS: u8 = b'A';
