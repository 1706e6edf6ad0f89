// What is left for C: how many numbers of each kind can still be handed out.
ghost use Rattle.std.specs.Prelude.{◌≡◌};
ghost use Rattle.abi.specs.Left.{left_in};

use model::arrays::{DEFINED, LOCKS, Registry, SEGMENTS, THREADS, USERS};
use model::bounds::{MOST_DEFINED, MOST_NUMBERS, MOST_SEGMENTS, MOST_USERS};

// Users, threads, segments, defined keys and locks that are left, in the lent cells.
#[unsafe(no_mangle)]
pub extern "C" fn rotundaaloe_raw_left(registry: &Registry, left: &mut [u32; 5])
    ensures { left.new ≡ left_in registry.now }
{
    *left = [
        MOST_USERS.saturating_sub(registry[USERS]),
        MOST_NUMBERS.saturating_sub(registry[THREADS]),
        (MOST_SEGMENTS as u32).saturating_sub(registry[SEGMENTS]),
        (MOST_DEFINED as u32).saturating_sub(registry[DEFINED]),
        MOST_NUMBERS.saturating_sub(registry[LOCKS]),
    ];
}
