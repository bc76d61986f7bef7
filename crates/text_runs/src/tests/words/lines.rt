//! Lines of words, and what each asks for.

/// Words that `|` separates, and after the arrow `usage`, or verb, number, band that is needed, mode, which watchers are asked
/// for, and name. Of watchers the series counts 1, the peak 2 and the occupancy 4.
pub(crate) const LINES: &str = "\
| => usage
check => usage
check|F1 => check 0 - low 0 [F1]
check|F1|F2 => usage
check|- => check 0 - low 0 [-]
check|-- => usage
check|--|F1 => check 0 - low 0 [F1]
check|--|-x => check 0 - low 0 [-x]
check|--|-- => check 0 - low 0 [--]
check|--|--need => check 0 - low 0 [--need]
check|--|--need=3 => check 0 - low 0 [--need=3]
check|--|F1|F2 => usage
check|F1|-- => check 0 - low 0 [F1]
check|F1|--|F2 => usage
check|F1|--|--series => usage
check|--series|F1 => check 0 - low 1 [F1]
check|F1|--series => check 0 - low 1 [F1]
check|--series|--|F1 => check 0 - low 1 [F1]
check|--series|F1|--series => usage
check|--series|--series|F1 => usage
check|--series=1|F1 => usage
check|--series=|F1 => usage
check|--series|1 => check 0 - low 1 [1]
check|--seri|F1 => usage
check|--serie|F1 => usage
check|--SERIES|F1 => usage
check|-series|F1 => usage
check|--peak|F1 => check 0 - low 2 [F1]
check|F1|--peak => check 0 - low 2 [F1]
check|--occupancy|F1 => check 0 - low 4 [F1]
check|F1|--occupancy|--peak => check 0 - low 6 [F1]
check|--series|--peak|F1 => check 0 - low 3 [F1]
check|--occupancy|F1|--series => check 0 - low 5 [F1]
check|--series|--peak|--occupancy|F1 => check 0 - low 7 [F1]
check|--series|--occupancy|--peak|F1 => check 0 - low 7 [F1]
check|--peak|--series|--occupancy|F1 => check 0 - low 7 [F1]
check|--peak|--occupancy|F1|--series => check 0 - low 7 [F1]
check|F1|--occupancy|--series|--peak => check 0 - low 7 [F1]
check|--occupancy|F1|--peak|--series => check 0 - low 7 [F1]
check|--peak|F1|--peak => usage
check|--occupancy|--series|--occupancy|F1 => usage
check|--peak=1|F1 => usage
check|--peak=|F1 => usage
check|--occupancy=1|F1 => usage
check|--peak|1 => check 0 - low 2 [1]
check|--pea|F1 => usage
check|--peaks|F1 => usage
check|--Peak|F1 => usage
check|--occup|F1 => usage
check|-peak|F1 => usage
check|-p|F1 => usage
check|-o|F1 => usage
check|--peak => usage
check|--|--peak => check 0 - low 0 [--peak]
check|F1|--|--occupancy => usage
check|-s|F1 => usage
check|--need|1|F1 => check 0 1 low 0 [F1]
check|--need|2|F1 => check 0 2 low 0 [F1]
check|--need|3|F1 => check 0 3 low 0 [F1]
check|--need|4|F1 => check 0 4 low 0 [F1]
check|--need|0|F1 => usage
check|--need|5|F1 => usage
check|--need=1|F1 => check 0 1 low 0 [F1]
check|--need=2|F1 => check 0 2 low 0 [F1]
check|--need=3|F1 => check 0 3 low 0 [F1]
check|--need=4|F1 => check 0 4 low 0 [F1]
check|--need=0|F1 => usage
check|--need=5|F1 => usage
check|--need=|F1 => usage
check|--need==1|F1 => usage
check|--need=01|F1 => usage
check|--need=1 |F1 => usage
check|--need= 1|F1 => usage
check|--need=11|F1 => usage
check|--need=one|F1 => usage
check|--need=-1|F1 => usage
check|--need=+1|F1 => usage
check|--need|-1|F1 => usage
check|--need|-|F1 => usage
check|--need|--|F1 => usage
check|--need||F1 => usage
check|--need|01|F1 => usage
check|--need|F1 => usage
check|F1|--need => usage
check|F1|--need|3 => check 0 3 low 0 [F1]
check|F1|--need=3 => check 0 3 low 0 [F1]
check|F1|--need|3|--need|3 => usage
check|F1|--need=3|--need=2 => usage
check|--need=3|F1|--need|3 => usage
check|--need|2|--need|2|F1 => usage
check|--nee|2|F1 => usage
check|--needs|2|F1 => usage
check|--Need|2|F1 => usage
check|-need|2|F1 => usage
check|--need:2|F1 => usage
check|need|2 => usage
check|need=2 => check 0 - low 0 [need=2]
check|--mode|low|F1 => check 0 - low 0 [F1]
check|--mode|high|F1 => check 0 - high 0 [F1]
check|--mode|both|F1 => check 0 - both 0 [F1]
check|--mode=low|F1 => check 0 - low 0 [F1]
check|--mode=high|F1 => check 0 - high 0 [F1]
check|--mode=both|F1 => check 0 - both 0 [F1]
check|--mode=Low|F1 => usage
check|--mode=HIGH|F1 => usage
check|--mode=lo|F1 => usage
check|--mode=lower|F1 => usage
check|--mode=|F1 => usage
check|--mode||F1 => usage
check|--mode|medium|F1 => usage
check|--mode|-|F1 => usage
check|--mode|--|F1 => usage
check|--mode|--need|F1 => usage
check|--mode|F1 => usage
check|F1|--mode => usage
check|F1|--mode|high => check 0 - high 0 [F1]
check|F1|--mode=both => check 0 - both 0 [F1]
check|--mode|low|--mode|low|F1 => usage
check|--mode=low|F1|--mode=high => usage
check|--mode|low|high => check 0 - low 0 [high]
check|--need=2|--mode|both|F1 => check 0 2 both 0 [F1]
check|--mode|both|--need=2|F1 => check 0 2 both 0 [F1]
check|--need|1|--mode|high|--series|F1 => check 0 1 high 1 [F1]
check|F1|--series|--mode=high|--need|4 => check 0 4 high 1 [F1]
check|--need|1|F1|--mode|high|--series => check 0 1 high 1 [F1]
check|--series|F1|--need=3|--mode=low => check 0 3 low 1 [F1]
check|--need|1|--mode|high|--series|--|- => check 0 1 high 1 [-]
check|--need|1|--mode|high|--series => usage
check|--need|1|--mode|high|--series|F1|F2 => usage
check|--peak|--need=2|--mode|both|F1|--occupancy => check 0 2 both 6 [F1]
check|--need=1=1|F1 => usage
check|low => check 0 - low 0 [low]
check|3 => check 0 - low 0 [3]
check|both|--mode|both => check 0 - both 0 [both]
check|4|--need|4 => check 0 4 low 0 [4]
check| => check 0 - low 0 []
check|  => check 0 - low 0 [ ]
check|a b => check 0 - low 0 [a b]
check|F1.toml => check 0 - low 0 [F1.toml]
check|./F1 => check 0 - low 0 [./F1]
check|/tmp/F1 => check 0 - low 0 [/tmp/F1]
check|ünder => check 0 - low 0 [ünder]
check|= => check 0 - low 0 [=]
check|--=|F1 => usage
check|--=1|F1 => usage
check|---|F1 => usage
check|---need|1|F1 => usage
check|----|F1 => usage
check|-x|F1 => usage
check|-1 => usage
check|-1|F1 => usage
check|--1|F1 => usage
check|--help => usage
check|-h => usage
check|--help|F1 => usage
check|-h|F1 => usage
check|F1|-h => usage
check|help => check 0 - low 0 [help]
check|--version => usage
check|-V => usage
check|--verbose|F1 => usage
check|--upper|F1 => usage
check|--name=F1 => usage
check|WORD => check 0 - low 0 [WORD]
check|--WORD|F1 => usage
check|--WORD=F1 => usage
check|check => check 0 - low 0 [check]
check|size => check 0 - low 0 [size]
check|--check|F1 => usage
size => usage
size|F1 => size 0 - low 0 [F1]
size|- => size 0 - low 0 [-]
size|--|- => size 0 - low 0 [-]
size|--|-x => size 0 - low 0 [-x]
size|--|-- => size 0 - low 0 [--]
size|-- => usage
size| => size 0 - low 0 []
size|F1|F2 => usage
size|F1|-- => size 0 - low 0 [F1]
size|F1|--series => usage
size|--series|F1 => usage
size|--peak|F1 => usage
size|F1|--occupancy => usage
size|--need|1|F1 => usage
size|--need=1|F1 => usage
size|--mode=low|F1 => usage
size|F1|--mode|low => usage
size|--|--series => size 0 - low 0 [--series]
size|--series => usage
size|--help => usage
size|-h => usage
size|-F1 => usage
size|007 => size 0 - low 0 [007]
gen => usage
gen|7 => gen 7 - low 0 []
gen|0 => gen 0 - low 0 []
gen|007 => gen 7 - low 0 []
gen|00000000000000000000 => gen 0 - low 0 []
gen|00000000000000000005 => gen 5 - low 0 []
gen|000000000000000000005 => usage
gen|18446744073709551615 => gen 18446744073709551615 - low 0 []
gen|18446744073709551616 => usage
gen|18446744073709551617 => usage
gen|99999999999999999999 => usage
gen|09999999999999999999 => gen 9999999999999999999 - low 0 []
gen|100000000000000000000 => usage
gen|-7 => usage
gen|+7 => usage
gen|--|7 => gen 7 - low 0 []
gen|--|-7 => usage
gen|--|+7 => usage
gen|7|-- => gen 7 - low 0 []
gen|7|8 => usage
gen|7|--|8 => usage
gen| => usage
gen|- => usage
gen| 7 => usage
gen|7  => usage
gen|7.0 => usage
gen|7e1 => usage
gen|0x7 => usage
gen|1_000 => usage
gen|seven => usage
gen|F1 => usage
gen|٧ => usage
gen|7|--series => usage
gen|7|--peak => usage
gen|--occupancy|7 => usage
gen|--need=1|7 => usage
gen|--mode=low|7 => usage
gen|--help => usage
bench => usage
bench|7 => bench 7 - low 0 []
bench|007 => bench 7 - low 0 []
bench|7|--series => bench 7 - low 1 []
bench|--series|7 => bench 7 - low 1 []
bench|7|--peak => bench 7 - low 2 []
bench|--occupancy|7 => bench 7 - low 4 []
bench|--occupancy|7|--series|--peak => bench 7 - low 7 []
bench|--need|3|7 => bench 7 3 low 0 []
bench|7|--need|3 => bench 7 3 low 0 []
bench|--need|3 => usage
bench|7|--need=4|--mode=both|--series => bench 7 4 both 1 []
bench|7|--mode=high|--series => bench 7 - high 1 []
bench|--mode|high|--need=1|--|7 => bench 7 1 high 0 []
bench|--mode|high|--|-7 => usage
bench|18446744073709551615|--need=4 => bench 18446744073709551615 4 low 0 []
bench|18446744073709551616|--need=4 => usage
bench|F1 => usage
bench|- => usage
bench|7|8 => usage
bench|7|--need=5 => usage
bench|7|--need=3|--need=3 => usage
bench|7|--series|--series => usage
bench|7|--peak|--occupancy|--peak => usage
bench|--mode=low|--mode=low|7 => usage
bench|--help => usage
Check|F1 => usage
CHECK|F1 => usage
chec|F1 => usage
checks|F1 => usage
check |F1 => usage
--check|F1 => usage
-check|F1 => usage
F1 => usage
F1|check => usage
--|check|F1 => usage
--series|check|F1 => usage
--need=1|check|F1 => usage
--help => usage
-h => usage
help => usage
--version => usage
- => usage
-- => usage
sizes|F1 => usage
gen7 => usage
bench7 => usage
report|F1 => usage
";
