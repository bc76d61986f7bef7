//! A subsystem as a loop for itself.

ghost use Rattle.std.specs.Prelude.{◌≡◌, ◌<◌, length, slice_index_or, IfOk};
ghost use Rattle.sil_model.specs.declared.parts.Subsystem.{Subsystem};
ghost use Rattle.subsystem_power.specs.Powers.{alone_of};

use sil_model::{Loop, Subsystem, Text};
use std::alloc::{AllocError, Global};

/// The loop of the subsystem `i` alone, with the mission and the order of a loop.
pub fn alone(alloc: Global, l: &Loop, i: usize) -> Result<Loop, AllocError>
    requires { i < length l.now.subsystems }
    ensures { (d : Subsystem) → IfOk result (λ a. a ≡ alone_of l.now (slice_index_or l.now.subsystems i d)) }
{
    let u = l.subsystem(i);
    let mut subsystems = Vec::with_capacity(alloc, 1)?;
    subsystems.push(Subsystem {
        name: Text::from_str(alloc, u.name.as_str())?,
        vote: u.vote,
        figures: u.figures,
        in_repair: u.in_repair,
        test: u.test,
    })?;
    Ok(Loop::new(l.mission(), l.order(), subsystems))
}
