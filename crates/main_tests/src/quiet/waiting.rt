//! The words of commands that wait: how many workers they name, which words need to wait, and that the call that waits for
//! nobody takes none of them.

use super::{ROOT, check, run, steady};
use edge_main::{Status, lane_hashers, needs_wait, waiting_of};
use std::test::Fail;

#[test]
fn words_name_the_workers(rt: HostRuntime) -> Result<(), Fail> {
    let cases: [(&[&str], u32); 8] = [
        (&["replay", "--workers", "4"], 4),
        (&["replay", "--workers=4"], 4),
        (&["--workers", "1", "replay"], 1),
        (&["--workers=64", "replay"], 64),
        (&["--workers", "2", "--", "replay"], 2),
        (&["--workers=2", "--", "replay"], 2),
        (&["replay", "--workers", "2", "--"], 2),
        (&["replay", "--workers=10", "--"], 10),
    ];
    for (words, workers) in cases {
        assert!(rt; waiting_of(words) == Some(workers));
        assert!(rt; needs_wait(words));
    }
    Ok(())
}

#[test]
fn other_words_name_no_workers(rt: HostRuntime) -> Result<(), Fail> {
    let alloc = rt.alloc();
    let cases: [&[&str]; 24] = [
        &["--workers"],
        &["--workers", "2"],
        &["replay", "--workers"],
        &["replay", "--workers="],
        &["replay", "--workers", "0"],
        &["replay", "--workers", "65"],
        &["replay", "--workers", "02"],
        &["replay", "--workers", "+2"],
        &["replay", "--workers", "-2"],
        &["replay", "--workers=-2"],
        &["replay", "--workers", "--", "2"],
        &["replay", "--workers", "2", "--workers", "2"],
        &["replay", "--workers=2", "--workers=2"],
        &["--workers=2", "replay", "--workers", "2"],
        &["replay", "extra", "--workers", "2"],
        &["replay", "--workers", "2", "extra"],
        &["replay", "--run", "--workers", "2"],
        &["check", "--workers", "2"],
        &["make", "7", "1", "--workers=2"],
        &["replay", "--worker", "2"],
        &["replay", "--workersx=2"],
        &["replay", "--", "--workers", "2"],
        &["--", "replay", "--workers=2"],
        &["serve", "--workers=2"],
    ];
    for words in cases {
        assert!(rt; waiting_of(words) == None);
        let ran = run(
            alloc,
            lane_hashers(&rt, alloc)?,
            words,
            ROOT,
            steady(alloc, 64),
        )?;
        check(&rt, &ran, Status::Usage, b"", b"edge: usage\n");
    }
    Ok(())
}

#[test]
fn words_that_need_to_wait_are_told(rt: HostRuntime) -> Result<(), Fail> {
    let waiting: [&[&str]; 5] = [
        &["serve"],
        &["make", "serve", "3"],
        &["--workers"],
        &["--", "--workers=4"],
        &["replay", "--workers="],
    ];
    for words in waiting {
        assert!(rt; needs_wait(words));
    }
    let others: [&[&str]; 6] = [
        &[],
        &["replay"],
        &["make", "7", "1", "--run"],
        &["served"],
        &["--worker=4"],
        &["--listen", "a:80"],
    ];
    for words in others {
        assert!(rt; !needs_wait(words));
    }
    Ok(())
}
