//! The watcher that keeps all records.

ghost use Rattle.std.specs.Prelude.{◌≡◌, [], ◌∷◌, ◌++◌, OnOk, OnErr, IfOk, codes};
ghost use Rattle.sil_watch.specs.FixedBy.{LinesFixRecords};
ghost use Rattle.sil_watch.specs.Lines.{line_of_record};
ghost use Rattle.sil_watch.specs.Series.{series_value};
ghost use Rattle.sil_watch.specs.Watching.{fed_with};

use crate::kind::WatcherKind;
use crate::lines::push_interval;
use crate::record::PhaseRecord;
use crate::watcher::Watcher;
use std::alloc::{AllocError, Global};
use std::marker::Model;

/// The records of all phases, one line each.
///
/// Contracts see it as the list of its records.
#[derive(Drop)]
pub struct Series {
    alloc: Global,
    records: Vec<PhaseRecord>,
}

impl Model for Series {
    ghost use Rattle.std.specs.Prelude.{List};
    ghost use Rattle.sil_watch.specs.declared.record.PhaseRecord.{PhaseRecord};

    ghost Value = { List PhaseRecord };

    ghost view = { λ s. s.records.items };
}

impl Series {
    /// A series without records.
    pub fn new(alloc: Global) -> Series
        ensures { result ≡ [] }
    {
        Series {
            alloc,
            records: Vec::new(alloc),
        }
    }
}

impl Watcher for Series {
    ghost watcher_value = { λ s. series_value s };

    fn kind(&self) -> WatcherKind {
        WatcherKind::Series
    }

    fn phase(&mut self, rec: &PhaseRecord) -> Result<(), AllocError>
        ensures kept { OnOk result (self.new ≡ self.old ++ rec.now ∷ []) }
        ensures taken { OnOk result (series_value self.new ≡ fed_with (rec.now ∷ []) (series_value self.old)) }
        ensures unchanged { OnErr result (self.new ≡ self.old) }
    {
        self.records.push(*rec)?;
        Ok(())
    }

    fn put_line(&self, i: usize, out: &mut Vec<u8>) -> Result<bool, AllocError> {
        let Some(rec) = self.records.get(i) else {
            return Ok(false);
        };
        let line = line(self.alloc, rec)?;
        out.extend_from_slice(line.as_slice())?;
        Ok(true)
    }
}

/// The line of a phase, ended by a line feed: its index, the hour at which it starts and its hours, then the ends of its mean
/// and of the chance of being down at its end, with 18 decimals.
fn line(alloc: Global, rec: &PhaseRecord) -> Result<Vec<u8>, AllocError>
    ensures { IfOk result (λ text. text.items ≡ line_of_record rec.now ++ codes "\n") }
{
    let head = format!(in alloc;
        "phase {} start {} hours {}",
        rec.index, rec.start, rec.hours
    )?;
    let mut text = head.into_bytes();
    push_interval(&mut text, b" mean ", rec.mean)?;
    push_interval(&mut text, b" end ", rec.at_end)?;
    text.extend_from_slice(b"\n")?;
    Ok(text)
}

/// One line stands for one record: its numbers are read back from it, whatever comes behind it.
pub fn lines_fix_records()
    ensures { LinesFixRecords }
{}
