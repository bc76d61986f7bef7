//! What watchers hold after a loop's figures were computed, and the sizes of loops.

ghost use Rattle.std.specs.Prelude.{◌≡◌, ◌<◌};

mod many_records;
mod restart_faults;
mod short_of_room;
mod sizes;
mod tests_each_hour;

use loop_value::{ValueFault, value};
use sil_model::{Loop, Steps};
use sil_watch::{Series, WatchSet, Watcher, WatcherKind};
use std::alloc::{AllocError, Global};
use std::marker::Brand;
use std::sync::ledger::{Blank, Ledger};
use std::test::Fail;

/// How the computation of a loop ended.
#[derive(Clone, Copy, Debug, PartialEq, Eq)]
enum Ended {
    WithFigures,
    AtLimit,
    ForWantOfMemory,
}

/// Computes a loop, and feeds these watchers.
fn computed<L: Ledger>(
    alloc: Global,
    l: &Loop,
    feed: &mut [Box<dyn Watcher>],
    asked: WatchSet,
    blank: Blank,
) -> Ended
    requires name { blank.name ≡ L.name }
    requires parts { blank.parts ≡ L.parts }
    requires some { 0 < blank.parts }
{
    let mut steps = Steps::<L>::open(blank);
    match value(alloc, l, 28, feed, asked, &mut steps) {
        Ok(_) => Ended::WithFigures,
        Err(ValueFault::Limit(_)) => Ended::AtLimit,
        Err(ValueFault::Memory(_)) => Ended::ForWantOfMemory,
    }
}

/// Computes a loop, and feeds the watchers whose kind is asked for.
fn told(alloc: Global, l: &Loop, feed: &mut [Box<dyn Watcher>], asked: WatchSet) -> Ended {
    computed::<Brand>(alloc, l, feed, asked, Blank::new(1))
}

/// The set of the series alone.
fn series() -> WatchSet {
    WatchSet::only(WatcherKind::Series)
}

/// So many series.
fn some_series(alloc: Global, number: usize) -> Result<Vec<Box<dyn Watcher>>, AllocError> {
    let mut feed: Vec<Box<dyn Watcher>> = Vec::new(alloc);
    for _ in 0..number {
        feed.push(Box::new(alloc, Series::new(alloc))?)?;
    }
    Ok(feed)
}

/// The lines of the watcher `i`, one behind the other.
fn lines_of(alloc: Global, feed: &[Box<dyn Watcher>], i: usize) -> Result<String, Fail> {
    let w = feed.get(i).ok_or("no watcher")?;
    let mut out = Vec::new(alloc);
    for k in 0..10_000 {
        if !w.put_line(k, &mut out)? {
            break;
        }
    }
    let text = std::str::from_utf8(out.as_slice()).map_err(|_| "no text")?;
    Ok(String::from_str(alloc, text)?)
}

/// A figure with 18 decimals, in units of 10^-18.
fn units(figure: &str) -> u128 {
    let mut units = 0u128;
    for byte in figure.bytes() {
        if byte.is_ascii_digit() {
            units = units
                .wrapping_mul(10)
                .wrapping_add(u128::from(byte.wrapping_sub(b'0')));
        }
    }
    units
}

/// Whether an interval holds a figure and is no wider than so many units.
fn holds(interval: &str, figure: &str, widest: u128) -> Result<bool, Fail> {
    let (lo, hi) = interval.split_once(" .. ").ok_or("no ends")?;
    let (lo, hi, figure) = (units(lo), units(hi), units(figure));
    Ok(lo <= figure && figure <= hi && hi.saturating_sub(lo) <= widest)
}
