// The registry: how many users, threads (document 01: runs), segments, defined keys (D keys) and locks were handed out.
// U is the one call that touches nothing else.
#![tactic(auto)]

ghost use Rattle.std.specs.Prelude.{◌≡◌, ltb};
ghost use Rattle.call.specs.declared.request.Request.TheVariants.{NewUser};
ghost use Rattle.model.specs.Limits.{most_segments};
ghost use Rattle.model.specs.Cells.{registry_is, cell, user_count, segment_count, defined_count};
ghost use Rattle.model.specs.Serving.{ServesLent};
ghost use Rattle.base.specs.Counts.{Counted};
ghost use Rattle.registry.specs.Counts.{Handed};

use model::answer::{Answer, Refusal};
use model::arrays::{DEFINED, Registry, SEGMENTS, USERS};
use model::bounds::{MOST_DEFINED, MOST_SEGMENTS, MOST_USERS};

// Whether the user was handed out.
pub fn is_user(registry: &Registry, user: u16) -> bool
    ensures { result ≡ ltb user (cell registry.now user_count) }
{
    (user as u32) < registry[USERS]
}

// How many segments there are.
pub fn segments(registry: &Registry) -> usize
    ensures { Counted (cell registry.now segment_count) most_segments result }
{
    (registry[SEGMENTS] as usize).min(MOST_SEGMENTS)
}

// How many defined keys there are. Their makers are lent as a slice, whose length is known in the proofs.
pub fn defined(registry: &Registry, makers: &[u16]) -> usize
    ensures { Handed (cell registry.now defined_count) makers.now result }
{
    (registry[DEFINED] as usize)
        .min(MOST_DEFINED)
        .min(makers.len())
}

// U, new user.
#[tactic(auto, unfolding(model::specs::Refusals::conditions, model::specs::Effects::answer, model::specs::Cells::state_of, model::specs::Stores::store))]
pub fn new_user(registry: &mut Registry) -> Answer
    ensures { ServesLent
        (registry_is registry.old)
        NewUser result
        (registry_is registry.new) }
{
    let users = registry[USERS];
    if MOST_USERS <= users {
        return Err(Refusal::Full);
    }
    registry[USERS] = users + 1;
    Ok(users as u16)
}
