// Files and outputs that fail: which of them is named.
use crate::runs::{Failing, Wanted, expect_failing};
use crate::samples::{WCD, fork};
use std::test::Fail;

#[test]
fn failing_devices_are_named(rt: HostRuntime) -> Result<(), Fail> {
    let report = "goals 1\ngoal 1 cost 3 (a) (b) (l)\nwcd none\n";
    for (shelf, out, err, code, written, warned) in [
        (1, 0, 0, 5, "", "grd: domain: read failed\n"),
        (2, 0, 0, 5, "", "grd: domain: read failed\n"),
        (3, 0, 0, 5, "", "grd: problem: read failed\n"),
        (4, 0, 0, 5, "", "grd: problem: read failed\n"),
        (5, 0, 0, 5, "", "grd: goals: read failed\n"),
        (6, 0, 0, 5, "", "grd: goals: read failed\n"),
        (7, 0, 0, 0, report, ""),
        (0, 1, 0, 6, "", "grd: output: write failed\n"),
        (0, 2, 0, 0, report, ""),
        (1, 0, 1, 5, "", ""),
    ] {
        let failing = Failing { shelf, out, err };
        let wanted = Wanted {
            code,
            out: written,
            err: warned,
        };
        expect_failing(&rt, rt.alloc(), WCD, fork("(atl)"), failing, wanted)?;
    }
    Ok(())
}
