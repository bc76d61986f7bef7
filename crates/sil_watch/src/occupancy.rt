//! The watcher that adds up the hours in each band.

ghost use Rattle.std.specs.Prelude.{◌≡◌, [], ◌∷◌, ◌++◌, ◌<◌, Ok, IfOk, codes};
ghost use Rattle.sil_bands.specs.BandOf.{place_of};
ghost use Rattle.sil_watch.specs.FixedBy.{LinesFixHours};
ghost use Rattle.sil_watch.specs.Occupancy.{HoursAddUp, bands, hours_line, no_hours, occupancy_value};
ghost use Rattle.sil_watch.specs.Watching.{fed_with};

use crate::kind::WatcherKind;
use crate::record::PhaseRecord;
use crate::watcher::Watcher;
use sil_bands::{band_text, pfd_band};
use sil_model::Band;
use std::alloc::{AllocError, Global};
use std::marker::Model;

/// The hours of the phases in each band, by the mean over the phase of the chance of being down.
///
/// Contracts see it as the hours, in the order of the bands.
#[derive(Drop)]
pub struct Occupancy {
    hours: [u64; 7],
}

impl Model for Occupancy {
    ghost use Rattle.std.specs.Prelude.{ℕ, List};

    ghost Value = { List ℕ };

    ghost view = { λ o. o.hours };
}

impl Occupancy {
    /// An occupancy without hours.
    pub fn new() -> Occupancy
        ensures { result ≡ no_hours }
    {
        Occupancy { hours: [0; 7] }
    }
}

impl Watcher for Occupancy {
    ghost watcher_value = { λ o. occupancy_value o };

    fn kind(&self) -> WatcherKind {
        WatcherKind::Occupancy
    }

    /// Takes no memory.
    fn phase(&mut self, rec: &PhaseRecord) -> Result<(), AllocError>
        ensures always { result ≡ Ok tt }
        ensures taken { occupancy_value self.new ≡ fed_with (rec.now ∷ []) (occupancy_value self.old) }
    {
        let place = place_of(pfd_band(rec.mean));
        self.hours[place] = self.hours[place].saturating_add(rec.hours);
        Ok(())
    }

    fn put_line(&self, i: usize, out: &mut Vec<u8>) -> Result<bool, AllocError> {
        let all = bands();
        if i >= all.len() {
            return Ok(false);
        }
        let line = line(*out.allocator(), all[i], self.hours[i])?;
        out.extend_from_slice(line.as_slice())?;
        Ok(true)
    }
}

/// The bands, in their order.
fn bands() -> [Band; 7]
    ensures { result ≡ bands }
{
    [
        Band::Beyond4,
        Band::Sil4,
        Band::Sil3,
        Band::Sil2,
        Band::Sil1,
        Band::NoSil,
        Band::Undecided,
    ]
}

/// The place of a band in their order.
fn place_of(band: Band) -> usize
    ensures is { result ≡ place_of band }
    ensures within { result < 7 }
{
    match band {
        Band::Beyond4 => 0,
        Band::Sil4 => 1,
        Band::Sil3 => 2,
        Band::Sil2 => 3,
        Band::Sil1 => 4,
        Band::NoSil => 5,
        Band::Undecided => 6,
    }
}

/// The line of a band, ended by a line feed: its text and its hours.
fn line(alloc: Global, band: Band, hours: u64) -> Result<Vec<u8>, AllocError>
    ensures { IfOk result (λ text. text.items ≡ hours_line band hours ++ codes "\n") }
{
    let text = format!(in alloc; "hours {} {}\n", band_text(band), hours)?;
    Ok(text.into_bytes())
}

/// An occupancy holds the hours of the records that it took in, each at the band of its mean.
pub fn hours_add_up()
    ensures { HoursAddUp }
{}

/// The lines of an occupancy stand for one number of hours in each band, whatever comes behind them.
pub fn lines_fix_hours()
    ensures { LinesFixHours }
{}
