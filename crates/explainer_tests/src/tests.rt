//! A block each, and the lines of its report.
use explainer::{Reading, report};
use std::process::Abort;
use std::test::Fail;

const MOUNT: &[u8] = b"1 MR5 place X MR 5
5 AA select all
8 MR,-7,2 place Y MR -7, Z MR 2
16 BH3 ! 6 0
20 ## ! 5 1
23 GO1 place X GO unfinished
texts 6, known 4, refused 2, unfinished 1
";

const BENCH: &[u8] = b"0 3PR5 place Z MR 5, Z GO
5 TP tell positions of Z
8 9TP ! 5 0
12 ws place Z WS
15 PR+ ! 7 3
texts 5, known 3, refused 2, unfinished 0
";

const SET: &[u8] = b"0 IOK2,1 set X kill input 2 at level 1
7 AY select Y
10 UU0.05 set Y units 0.05
17 IOK16,1 ! 8 3
25 UF set Y units off unfinished
texts 5, known 4, refused 1, unfinished 1
";

fn reports(
    rt: &(impl Abort + AllocGlobal),
    reading: Reading,
    block: &[u8],
    lines: &[u8],
) -> Result<(), Fail> {
    let report = report(rt.alloc(), reading, block)?;
    assert!(rt; report.as_slice() == lines);
    Ok(())
}

#[test]
fn mount(rt: HostRuntime) -> Result<(), Fail> {
    reports(&rt, Reading::Mount, b" MR5;AA;MR,-7,2;BH3;##;GO1", MOUNT)
}

#[test]
fn bench(rt: HostRuntime) -> Result<(), Fail> {
    reports(&rt, Reading::Bench, b"3PR5;TP;9TP;ws;PR+;", BENCH)
}

#[test]
fn set(rt: HostRuntime) -> Result<(), Fail> {
    reports(&rt, Reading::Set, b"IOK2,1;AY;UU0.05;IOK16,1;UF", SET)
}
