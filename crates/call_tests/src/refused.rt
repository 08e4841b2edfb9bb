//! Rows of refused files: each command with each of its files by each fault of that file, by each engine and
//! under each rule.

use crate::table::check_table;
use std::test::Fail;

// `mapped` are all commands with a map, `nowhere` the same where no file has its name, `listed` those with a
// scenario, `tabled` those that load tables. The first fault of the first file is named, whatever stands in
// those behind it.
pub(crate) const REFUSED: &str = "
M1 | mapped | => 3 jps: map M1 line 1
M1 | mapped | type octile/height 1/width x/map/. => 3 jps: map M1 line 3
M2 | mapped | type octile/height 0/width 3/map => 3 jps: map M2 line 2
M2 | mapped | type octile/height 1/width 4097/map => 3 jps: map M2 line 3
M3 | mapped | type octile/height 2/width 3/map/.../.. => 3 jps: map M3 line 6
M4 | mapped | type octile/height 2/width 3/map/... => 3 jps: map M4 line 6
M5 | mapped | type octile/height 1/width 3/map/.x. => 3 jps: map M5 line 5 column 2
M6 | mapped | type octile/height 1/width 1/map/./. => 3 jps: map M6 line 6
C1 | listed | .. | version 2 => 3 jps: scen C1 line 1
C2 | listed | .. | version 1/0 m 2 1 0 0 1 1 => 3 jps: scen C2 line 2
C3 | listed | .. | version 1/~2/0 m 2 1 0000000000 0 1 0 1 => 3 jps: scen C3 line 3
C4 | listed | .. | version 1/0 m 2 1 0 0 1 0 1. => 3 jps: scen C4 line 2
F1 | tabled | ... | bolck | %7=50 => 3 jps: tables F1
F1 | tabled | ... | bolck | %8=9 => 3 jps: tables F1
F1 | tabled | ... | bolck | => 3 jps: tables F1
F2 | tabled | ... | bolck | %cut => 3 jps: tables F2
F3 | tabled | ... | bolck | %17=253 => 3 jps: tables F3 land 0,0 E
F3 | tabled | ... | bolck | %108=1 => 3 jps: tables F3 water 2,0 NW
large | query m 0 0 1 1 engine=small rule=any | %large => 3 jps: map large
large | scen m absent engine=small rule=any | %large => 3 jps: map large
large | boxes m 0 0 rule=any | %large => 3 jps: map large
large | moves m 0 0 rule=any | %large => 3 jps: map large
absent | nowhere => 4 jps: read
absent | solve m no engine=each rule=any | . => 4 jps: read
absent | scen m no engine=any rule=any | . => 4 jps: read
absent | judge m no t rule=any | . => 4 jps: read
absent | judge m s no rule=any | . | version 1 => 4 jps: read
absent | check m no rule=any | . => 4 jps: read
absent | lengths m no rule=any | . => 4 jps: read
";

#[test]
fn each_refused_file_is_named_by_its_fault(rt: HostRuntime) -> Result<(), Fail> {
    check_table(rt.alloc(), &rt, REFUSED)
}
