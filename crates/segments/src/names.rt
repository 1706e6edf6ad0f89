// What G and T test next to the thread: the segment and the key that they name are handed out.
ghost use Rattle.std.specs.Prelude.{◌<◌, OnOk};
ghost use Rattle.model.specs.Limits.{most_segments, most_defined};
ghost use Rattle.segments.specs.Internal.{NamesTested};

use model::answer::Refusal;
use model::arrays::Registry;
use registry::{defined, segments};

// The refusal is that of the first that is not.
pub(crate) fn test_names(
    registry: &Registry,
    makers: &[u16],
    segment: u16,
    key: u16,
) -> Result<(), Refusal>
    ensures tested { NamesTested registry.now makers.now segment key result }
    ensures low { OnOk result ((segment < most_segments) × (key < most_defined)) }
{
    if segments(registry) <= segment as usize {
        return Err(Refusal::NoSegment);
    }
    if defined(registry, makers) <= key as usize {
        return Err(Refusal::NoKey);
    }
    Ok(())
}
