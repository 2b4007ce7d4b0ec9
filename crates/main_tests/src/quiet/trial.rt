//! `make --run`: the summary that it writes, where the flag may stand, and a write that fails.
use super::{check, run, steady};
use edge_main::{Status, lane_hashers};
use std::test::Fail;

const NONE: &str = "requests 0\npass 0\nblock 0\nchallenge 0\nredirect 0\nfull 0\nsteps 0\n";

const ONE: &str = "requests 1\npass 1\nblock 0\nchallenge 0\nredirect 0\nfull 0\nsteps 1\n";

const FORTY: &str =
    "requests 40\npass 34\nblock 6\nchallenge 0\nredirect 0\nfull 0\nsteps 34\nrule fw/b1 6\n";

const TEN_THOUSAND: &str =
    "requests 10000\npass 8799\nblock 1201\nchallenge 0\nredirect 0\nfull 0\nsteps 8800\nrule fw/b1 1200\nrule rl/l1 1\n";

#[test]
fn made_requests_are_summed_up(rt: HostRuntime) -> Result<(), Fail> {
    let alloc = rt.alloc();
    let cases: [(&[&str], &str); 6] = [
        (&["make", "7", "0", "--run"], NONE),
        (&["make", "7", "1", "--run"], ONE),
        (&["make", "7", "40", "--run"], FORTY),
        (&["make", "7", "10000", "--run"], TEN_THOUSAND),
        (&["make", "7", "--run", "1"], ONE),
        (&["--run", "make", "--", "7", "1"], ONE),
    ];
    for (words, out) in cases {
        let ran = run(
            alloc,
            lane_hashers(&rt, alloc)?,
            words,
            "",
            steady(alloc, 64),
        )?;
        check(&rt, &ran, Status::Done, out.as_bytes(), b"");
    }
    Ok(())
}

#[test]
fn write_of_a_summary_may_fail(rt: HostRuntime) -> Result<(), Fail> {
    let alloc = rt.alloc();
    let mut streams = steady(alloc, 8);
    streams.writes.push(1)?;
    let ran = run(
        alloc,
        lane_hashers(&rt, alloc)?,
        &["make", "7", "1", "--run"],
        "",
        streams,
    )?;
    check(
        &rt,
        &ran,
        Status::WriteFault,
        &ONE.as_bytes()[..8],
        b"edge: write fault\n",
    );
    Ok(())
}
