//! The lines of `size`.

ghost use Rattle.std.specs.Prelude.{◌≡◌, IfOk, string_bytes};
ghost use Rattle.sil_report.specs.Texts.{size_text_of, counts_text};

use sil_model::{Loop, Sizes};
use std::alloc::{AllocError, Global};
use std::fmt::Write;

/// The six lines of `size`: the mission time in hours, the counts of phases, lumped states and beats, the order of the
/// series, and the work, which is beats times order times states.
///
/// Mission time and order are those of the loop, the rest those of the sizes.
#[tactic(auto, unfolding(crate::specs::Texts::size_text_of))]
pub fn size_text(alloc: Global, l: &Loop, s: &Sizes) -> Result<Vec<u8>, AllocError>
    ensures { IfOk result (λ text. text.items ≡ size_text_of l.now s.now) }
{
    let mut text = counts_text(alloc, l.mission(), s.phases, s.states, s.beats, l.order())?;
    writeln!(text, "work {}", s.work)?;
    Ok(text.into_bytes())
}

/// The five lines of counts, with which the sizes and a report begin.
pub fn counts_text(
    alloc: Global,
    mission: u32,
    phases: u64,
    states: u64,
    beats: u64,
    order: u8,
) -> Result<String, AllocError>
    ensures { IfOk result (λ text. string_bytes text ≡ counts_text mission phases states beats order) }
{
    format!(in alloc;
        "mission {mission}\nphases {phases}\nstates {states}\nbeats {beats}\norder {order}\n"
    )
}
