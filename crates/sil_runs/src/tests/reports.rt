//! Figures, bands and widths.

use super::figures::{between, ends_and_band, is_line};
use super::{lines_of, report_of};
use std::test::Fail;

/// Loop files after their first line `version = 1`, and what their reports tell: the counts, then PFDavg, its band and how wide
/// its interval may be, and the same of PFH. `;` stands for a line feed, and figures are in units of 10^-18, cut off behind their
/// last digit.
///
/// The figures are closed forms, for example `1 - (1 - e^-x)/x` with x the rate times the mission time, or come from an
/// independent computation over the full states. The counts and the widths come from a script of the definitions.
const REPORTS: &str = "\
mission = 8760;[[subsystem]];name = 'sif';vote = '1oo1';du = '1.0E-6';repair = 8\
|mission 8760;phases 1;states 4;beats 1096;order 28;|4367238360223395|SIL 2|3189043697|995632761639|SIL 2|3192
mission = 8760;[[subsystem]];name = 'sif';vote = '1oo2';du = '1.0E-6';repair = 8\
|mission 8760;phases 1;states 10;beats 2191;order 28;|25411829522432|SIL 4|6515310959|8683653061|SIL 4|13033
mission = 8760;[[subsystem]];name = 'sif';vote = '1oo1';du = '0';repair = 8\
|mission 8760;phases 1;states 4;beats 1095;order 28;|0|beyond SIL 4|3186134025|0|beyond SIL 4|3
mission = 1;[[subsystem]];name = 'sif';vote = '1oo1';du = '1.0E-6';repair = 8\
|mission 1;phases 1;states 4;beats 1;order 28;|499999833333|beyond SIL 4|2952307|999999500000|SIL 2|5
order = 16;mission = 8760;[[subsystem]];name = 'sif';vote = '1oo1';du = '1.0E-6';repair = 8\
|mission 8760;phases 1;states 4;beats 1096;order 16;|4367238360223395|SIL 2|1148706021|995632761639|SIL 2|1151
mission = 8760;[[subsystem]];name = 'sif';vote = '1oo1';du = '1.0E-6';repair = 8;dd = '1.0E-5';in_repair = 'tripped'\
|mission 8760;phases 1;states 4;beats 1096;order 28;|4366890661381011|SIL 2|3189043697|995553537472|SIL 2|35082
mission = 8760;[[subsystem]];name = 'sif';vote = '1oo1';du = '1.0E-6';repair = 8;dd = '1.0E-5'\
|mission 8760;phases 1;states 4;beats 1096;order 28;|4446462527386423|SIL 2|3189043697|10951088912198|no SIL|35082
mission = 100;[[subsystem]];name = 'sif';vote = '1oo1';du = '0';repair = 8;restart_fault = '0.02'\
;test = { first = 50, every = 100 }\
|mission 100;phases 2;states 4;beats 14;order 28;|10000000000000000|undecided|41048055|200000000000000|no SIL|410483
mission = 100;[[type]];name = 't';repair = 8;in_repair = 'tripped';[[subsystem]];name = 'a';type = 't';vote = '1oo1'\
;du = '0';restart_fault = '1';test = { first = 25, every = 50 };[[subsystem]];name = 'b';type = 't';vote = '1oo1'\
;du = '0';restart_fault = '0.1';test = { first = 75, every = 100 }\
|mission 100;phases 3;states 16;beats 27;order 28;|525000000000000000|no SIL|84664721|10000000000000000|no SIL|1693297
mission = 43800;[[subsystem]];name = 'sif';vote = '1oo1';du = '1.0E-6';repair = 24;coverage = '0.9'\
;test = { every = 8760, full_each = 3 }\
|mission 43800;phases 5;states 4;beats 1830;order 28;|5080233877036655|SIL 2|5325823339|994919766122|SIL 2|491705
mission = 48;[[subsystem]];name = 'pair';vote = '1oo2';du = '1.0E-3';dd = '1.0E-3';restart_fault = '0.001';repair = 2\
;test = { every = 1 }\
|mission 48;phases 48;states 10;beats 96;order 28;|51704149384746|SIL 4|301270121|42256778660948|no SIL|296198742
mission = 4097;[[subsystem]];name = 'sif';vote = '1oo1';du = '5.0E-7';repair = 8;test = { every = 1 }\
|mission 4097;phases 4097;states 4;beats 4097;order 28;|4241673085668|beyond SIL 4|13026916436|499997879163|SIL 2|13023743327
mission = 1000;[[subsystem]];name = 'a';vote = '1oo1';du = '0';restart_fault = '0.2';repair = 8\
;test = { first = 200, every = 300 };[[subsystem]];name = 'b';vote = '1oo1';du = '1.0E-5';restart_fault = '0.3'\
;repair = 8;test = { first = 500, every = 300 }\
|mission 1000;phases 4;states 16;beats 254;order 28;|257139065190125178|no SIL|786222644|815769911619331|no SIL|2366533
mission = 17520;[[subsystem]];name = 'three';vote = '2oo3';du = '3.0E-6';dd = '4.0E-6';beta = '0.08';beta_d = '0.04'\
;coverage = '0.7';restart_fault = '0.002';repair = 168\
;test = { first = 720, every = 4380, stagger = 168, full_each = 2 }\
|mission 17520;phases 13;states 64;beats 324;order 28;|941225997587972|SIL 3|1179941479|795898979736|SIL 2|832016
mission = 8760;[[subsystem]];name = 'pair';vote = '1oo2';du = '4.0E-6';dd = '6.0E-6';beta = '1';beta_d = '1'\
;repair = 12;test = { every = 730 }\
|mission 8760;phases 12;states 10;beats 1464;order 28;|1516125142926964|SIL 2|4357161744|9984838748570|SIL 1|5514896
mission = 250000;[[subsystem]];name = 'sif';vote = '1oo4';du = '0';repair = 1\
|mission 250000;phases 1;states 35;beats 1000000;order 28;|0|beyond SIL 4|3240075248102|0|beyond SIL 4|3
mission = 240;[[type]];name = 'plant';repair = 24;[[subsystem]];name = 'sensors';type = 'plant';vote = '2oo3'\
;du = '5.0E-7';dd = '2.0E-6';test = { every = 80 };[[subsystem]];name = 'logic';type = 'plant';vote = '1oo1'\
;du = '1.0E-7';dd = '9.0E-7';test = { every = 80 };[[subsystem]];name = 'valves';type = 'plant';vote = '1oo2'\
;du = '2.0E-6';test = { every = 80 }\
|mission 240;phases 3;states 800;beats 63;order 28;|25039916120531|SIL 4|773741961|1001486007159|SIL 1|6457524
mission = 26280;[[type]];name = 'plant';repair = 24;[[subsystem]];name = 'sensors';type = 'plant';vote = '2oo3'\
;du = '5.0E-7';dd = '2.0E-6';test = { every = 8760 };[[subsystem]];name = 'logic';type = 'plant';vote = '1oo1'\
;du = '1.0E-7';dd = '9.0E-7';test = { every = 8760 };[[subsystem]];name = 'valves';type = 'plant';vote = '1oo2'\
;du = '2.0E-6';test = { every = 8760 }\
|mission 26280;phases 3;states 800;beats 6573;order 28;|581962981265824|SIL 3|75593359129|1067366687439|SIL 1|6697839
mission = 26280;[[type]];name = 'plant';repair = 24;[[subsystem]];name = 'sensors';type = 'plant';vote = '2oo3'\
;du = '5.0E-7';dd = '2.0E-6';beta = '0.05';beta_d = '0.02';test = { every = 8760 };[[subsystem]];name = 'logic'\
;type = 'plant';vote = '1oo1';du = '1.0E-7';dd = '9.0E-7';test = { every = 8760 };[[subsystem]];name = 'valves'\
;type = 'plant';vote = '1oo2';du = '2.0E-6';beta = '0.1';test = { every = 8760 }\
|mission 26280;phases 3;states 800;beats 6573;order 28;|1547679517462512|SIL 2|75593359129|1321950692652|SIL 1|6672893
mission = 400;[[type]];name = 't';du = '1.0E-6';dd = '1.0E-6';coverage = '0.5';repair = 8;[[subsystem]];name = 'a'\
;type = 't';vote = '1oo8';[[subsystem]];name = 'b';type = 't';vote = '1oo3'\
|mission 400;phases 1;states 3300;beats 551;order 28;|17309912|beyond SIL 4|21022014353|339344|beyond SIL 4|462487
mission = 43800;[[subsystem]];name = 'sensors';vote = '1oo2';du = '2400000E-12';dd = '4500000E-12';beta = '60E-3'\
;beta_d = '30E-3';coverage = '950E-3';restart_fault = '0E-6';repair = 72;test = { every = 8760, full_each = 2 }\
;[[subsystem]];name = 'logic';vote = '1oo1';du = '3700000E-12';dd = '9500000E-12';beta = '50E-3';beta_d = '25E-3'\
;coverage = '900E-3';restart_fault = '200E-6';repair = 72;test = { every = 8760, full_each = 1 };[[subsystem]]\
;name = 'valves';vote = '1oo2';du = '1300000E-12';dd = '500000E-12';beta = '20E-3';beta_d = '10E-3'\
;coverage = '1000E-3';restart_fault = '500E-6';repair = 72;test = { every = 8760, full_each = 2 }\
|mission 43800;phases 5;states 400;beats 3045;order 28;|17995757341979306|SIL 1|22061438899|13442239249746|no SIL|2682987
";

/// Two loop files each, the first of which has the smaller PFDavg.
const SMALLER: &str = "\
mission = 8760;[[subsystem]];name = 'sif';vote = '1oo1';du = '1.0E-6';dd = '1.0E-5';repair = 8;in_repair = 'tripped'\
|mission = 8760;[[subsystem]];name = 'sif';vote = '1oo1';du = '1.0E-6';dd = '1.0E-5';repair = 8;in_repair = 'lost'
mission = 43800;[[subsystem]];name = 'sif';vote = '1oo1';du = '1.0E-6';repair = 24;coverage = '0.9'\
;test = { every = 8760 }\
|mission = 43800;[[subsystem]];name = 'sif';vote = '1oo1';du = '1.0E-6';repair = 24;coverage = '0.9'\
;test = { every = 8760, full_each = 3 }
";

/// Whether the two lines of a report tell the figures of a row.
fn tells(report: &str, row: &str) -> Result<bool, Fail> {
    let (pfd, rest) = row.split_once('|').ok_or("no PFDavg")?;
    let (pfd_band, rest) = rest.split_once('|').ok_or("no band")?;
    let (pfd_width, rest) = rest.split_once('|').ok_or("no width")?;
    let (pfh, rest) = rest.split_once('|').ok_or("no PFH")?;
    let (pfh_band, pfh_width) = rest.split_once('|').ok_or("no band")?;
    Ok(
        is_line(between(report, "pfd ", "\n")?, pfd, pfd_band, pfd_width)?
            && is_line(between(report, "pfh ", "\n")?, pfh, pfh_band, pfh_width)?,
    )
}

#[test]
fn reports_hold_the_figures(rt: HostRuntime) -> Result<(), Fail> {
    let alloc = rt.alloc();
    for row in REPORTS.lines() {
        let (file, rest) = row.split_once('|').ok_or("no file")?;
        let (counts, figures) = rest.split_once('|').ok_or("no counts")?;
        let report = report_of(alloc, "check loop.toml", file)?;
        let counts = lines_of(alloc, counts)?;
        assert!(rt; report.as_str().starts_with(counts.as_str()), "{report}");
        assert!(rt; tells(report.as_str(), figures)?, "{report}");
        assert_eq!(rt; report.as_str().lines().count(), 7);
    }
    Ok(())
}

/// A repair that counts as tripped, and full tests alone, make PFDavg smaller.
#[test]
fn intervals_that_lie_apart(rt: HostRuntime) -> Result<(), Fail> {
    let alloc = rt.alloc();
    for row in SMALLER.lines() {
        let (small, great) = row.split_once('|').ok_or("one file")?;
        let small = report_of(alloc, "check loop.toml", small)?;
        let great = report_of(alloc, "check loop.toml", great)?;
        let (_, hi, _) = ends_and_band(between(small.as_str(), "pfd ", "\n")?)?;
        let (lo, _, _) = ends_and_band(between(great.as_str(), "pfd ", "\n")?)?;
        assert!(rt; hi < lo, "{small}{great}");
    }
    Ok(())
}
