//! The watcher that keeps the phase at whose end the chance of being down is greatest.

ghost use Rattle.std.specs.Prelude.{◌≡◌, [], ◌∷◌, ◌++◌, None, Ok, IfOk, codes};
ghost use Rattle.sil_watch.specs.FixedBy.{LinesFixPeaks};
ghost use Rattle.sil_watch.specs.Peak.{PeaksKeepGreatest, is_exceeded, peak_line, peak_value};
ghost use Rattle.sil_watch.specs.Watching.{fed_with};

use crate::kind::WatcherKind;
use crate::lines::push_interval;
use crate::record::PhaseRecord;
use crate::watcher::Watcher;
use std::alloc::{AllocError, Global};
use std::marker::Model;

/// Of the phases whose chance of being down at their end has the greatest upper end, the first.
///
/// Contracts see it as the record of this phase, if there is one.
#[derive(Drop)]
pub struct Peak {
    kept: Option<PhaseRecord>,
}

impl Model for Peak {
    ghost use Rattle.std.specs.Prelude.{Option};
    ghost use Rattle.sil_watch.specs.declared.record.PhaseRecord.{PhaseRecord};

    ghost Value = { Option PhaseRecord };

    ghost view = { λ p. p.kept };
}

impl Peak {
    /// A peak that keeps no record.
    pub fn new() -> Peak
        ensures { result ≡ None }
    {
        Peak { kept: None }
    }

    /// Whether the upper end of a record is greater than that of the one that is kept, if one is.
    fn is_exceeded(&self, rec: &PhaseRecord) -> bool
        ensures { result ≡ is_exceeded self.now rec.now }
    {
        match &self.kept {
            Some(kept) => kept.at_end.hi < rec.at_end.hi,
            None => true,
        }
    }
}

impl Watcher for Peak {
    ghost watcher_value = { λ p. peak_value p };

    fn kind(&self) -> WatcherKind {
        WatcherKind::Peak
    }

    /// Takes no memory.
    fn phase(&mut self, rec: &PhaseRecord) -> Result<(), AllocError>
        ensures always { result ≡ Ok tt }
        ensures taken { peak_value self.new ≡ fed_with (rec.now ∷ []) (peak_value self.old) }
    {
        if self.is_exceeded(rec) {
            self.kept = Some(*rec);
        }
        Ok(())
    }

    fn put_line(&self, i: usize, out: &mut Vec<u8>) -> Result<bool, AllocError> {
        let Some(kept) = &self.kept else {
            return Ok(false);
        };
        if i > 0 {
            return Ok(false);
        }
        let line = line(*out.allocator(), kept)?;
        out.extend_from_slice(line.as_slice())?;
        Ok(true)
    }
}

/// The line of the phase that is kept, ended by a line feed: its index, and the ends of the chance of being down at its end.
fn line(alloc: Global, rec: &PhaseRecord) -> Result<Vec<u8>, AllocError>
    ensures { IfOk result (λ text. text.items ≡ peak_line rec.now.index rec.now.at_end.lo rec.now.at_end.hi ++ codes "\n") }
{
    let head = format!(in alloc; "peak phase {}", rec.index)?;
    let mut text = head.into_bytes();
    push_interval(&mut text, b" end ", rec.at_end)?;
    text.extend_from_slice(b"\n")?;
    Ok(text)
}

/// Of the records that it took in, a peak keeps the first whose upper end is the greatest.
pub fn peaks_keep_greatest()
    ensures { PeaksKeepGreatest }
{}

/// The line of a peak stands for one phase and one interval, whatever comes behind it.
pub fn lines_fix_peaks()
    ensures { LinesFixPeaks }
{}
