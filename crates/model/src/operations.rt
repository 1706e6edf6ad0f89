// Operations and sets of them, as document 01 numbers them.
ghost use Rattle.std.specs.Prelude.{◌≡◌};
ghost use Rattle.model.specs.Operations.{takes, is_access, takes_set, shares};

// A set of operations, the sum of their numbers; with DENY among them a lock's set is a deny lock's. Document 01 asks
// for associated constants: an access and a lock name their operations by any number, and C and a lock's row hold it.
#[derive(Clone, Copy)]
pub struct Operations {
    pub bits: u32,
}

impl Operations {
    pub const EXECUTE: u32 = 1;

    pub const READ: u32 = 2;

    pub const WRITE: u32 = 4;

    pub const DENY: u32 = 8;

    // Whether the operation is one of the set; of several operations, whether one of them is.
    pub fn has(self, operation: u32) -> bool
        ensures { result ≡ shares self.bits operation }
    {
        self.bits & operation != 0
    }

    // Whether a lock may have the set on a segment of that kind.
    pub fn fits(self, kind: u16) -> bool
        ensures { result ≡ takes_set kind self.bits }
    {
        let executes = self.has(Operations::EXECUTE);
        let reads = self.has(Operations::READ);
        let writes = self.has(Operations::WRITE);
        if kind == 0 {
            (self.bits < 16) & executes & !reads & !writes
        } else {
            (self.bits < 16) & !executes & (reads | writes)
        }
    }
}

// Whether a segment of that kind takes the operation: any numbers, as they stand in a call and in a lent cell.
pub fn is_taken(operation: u32, kind: u16) -> bool
    ensures { result ≡ takes kind operation }
{
    if kind == 0 {
        operation == Operations::EXECUTE
    } else {
        (operation == Operations::READ) | (operation == Operations::WRITE)
    }
}

// Whether an access can be for it.
pub fn is_access(operation: u32) -> bool
    ensures { result ≡ is_access operation }
{
    (operation == Operations::READ) | (operation == Operations::WRITE)
}
