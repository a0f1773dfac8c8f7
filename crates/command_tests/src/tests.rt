//! The tables of the rule book, row by row.
use command::request::{
    Command, Context, Operands, Port, Refusal, Request, Selection, Setting, Settings,
};
use command::{read, read_setting};
use drive::axis::Axis;
use queue::entry::Batch;
use std::process::Abort;
use std::test::Fail;
use text::Decimal;

const ONE: Selection = Selection::One(Axis::X);

/// A text, with the number and the place of its refusal.
struct Judged(&'static [u8], u8, usize);

const MOUNT_ONE: [Judged; 17] = [
    Judged(b"", 4, 0),
    Judged(b"##", 5, 1),
    Judged(b"M", 5, 1),
    Judged(b"RQ", 5, 2),
    Judged(b"RX", 5, 1),
    Judged(b"5", 5, 0),
    Judged(b"MAX", 7, 2),
    Judged(b"MR", 7, 2),
    Judged(b"MR+", 7, 3),
    Judged(b"MR1,2", 7, 3),
    Judged(b"GO1", 7, 2),
    Judged(b"GO;", 7, 2),
    Judged(b"BH-1", 8, 2),
    Judged(b"BH16", 8, 2),
    Judged(b"BH1.5", 7, 3),
    Judged(b"MR1.5", 7, 3),
    Judged(b"MR2147483647", 8, 2),
];

const MOUNT_ALL: [Judged; 14] = [
    Judged(b"MR", 7, 2),
    Judged(b"GO", 7, 2),
    Judged(b"KS", 7, 2),
    Judged(b"MR,", 7, 3),
    Judged(b"MR,,,,,,,", 7, 9),
    Judged(b"MR,,,,,,,,", 7, 9),
    Judged(b"MA1,2,3,4,5,6,7,8,9", 7, 17),
    Judged(b"MR1,x", 7, 4),
    Judged(b"MR1,2147483647,9999999999", 8, 4),
    Judged(b"MR9999999999,x", 7, 13),
    Judged(b"BH99", 6, 0),
    Judged(b"BHx", 6, 0),
    Judged(b"B", 5, 1),
    Judged(b"FL", 6, 0),
];

const BENCH: [Judged; 14] = [
    Judged(b"9PR5", 5, 0),
    Judged(b"0TP", 5, 0),
    Judged(b"00PR", 5, 0),
    Judged(b"003PR", 5, 0),
    Judged(b"12", 5, 0),
    Judged(b"3", 5, 1),
    Judged(b"3P", 5, 2),
    Judged(b"3X", 5, 1),
    Judged(b"3PX", 5, 2),
    Judged(b"-3PR", 5, 0),
    Judged(b"PR+", 7, 3),
    Judged(b"PR1.5", 7, 3),
    Judged(b"3ST1", 7, 3),
    Judged(b"1PR1000000001", 8, 3),
];

const SET: [Judged; 22] = [
    Judged(b"UU", 7, 2),
    Judged(b"UU1.", 7, 4),
    Judged(b"UU.5", 7, 2),
    Judged(b"UU0.0", 8, 2),
    Judged(b"UU-1", 8, 2),
    Judged(b"UU2147483647", 8, 2),
    Judged(b"UU12345678901", 7, 12),
    Judged(b"UU1234567890.1", 7, 12),
    Judged(b"IOK", 7, 3),
    Judged(b"IOK,", 7, 4),
    Judged(b"IOK2", 7, 4),
    Judged(b"IOK2,", 7, 5),
    Judged(b"IOK,5", 7, 4),
    Judged(b"IOKx", 7, 3),
    Judged(b"IOK16,1", 8, 3),
    Judged(b"IOK2,2", 8, 5),
    Judged(b"IOK16,", 7, 6),
    Judged(b"AA", 5, 1),
    Judged(b"IO", 5, 2),
    Judged(b"AY1", 7, 2),
    Judged(b"UF1", 7, 2),
    Judged(b"IOK16,2", 8, 3),
];

/// The number and the place of a refusal.
fn told(refusal: Refusal) -> (u8, usize) {
    let notice = refusal.notice();
    (notice.number, notice.place)
}

/// What a text asks for, with Y as port P's last axis.
fn scaled(
    port: Port,
    selection: Selection,
    settings: &[Settings],
    text: &[u8],
) -> Result<Command, Refusal> {
    let context = Context {
        selection,
        last: Axis::Y,
        settings,
    };
    read(port, text, &context)
}

/// The same, with units off.
fn command(port: Port, selection: Selection, text: &[u8]) -> Result<Command, Refusal> {
    scaled(port, selection, &[], text)
}

fn check_table(rt: &impl Abort, port: Port, selection: Selection, rows: &[Judged]) {
    for &Judged(text, number, place) in rows {
        let refusal = command(port, selection, text).err();
        assert_eq!(rt; refusal.map(told), Some((number, place)));
    }
}

#[test]
fn refused(rt: HostRuntime) {
    check_table(&rt, Port::M, ONE, &MOUNT_ONE);
    check_table(&rt, Port::M, Selection::All, &MOUNT_ALL);
    check_table(&rt, Port::P, ONE, &BENCH);
    for &Judged(text, number, place) in &SET {
        let refusal = read_setting(text).err();
        assert_eq!(rt; refusal.map(told), Some((number, place)));
    }
}

/// The code, the operands and whether a GO follows.
fn placed(outcome: Result<Command, Refusal>) -> Option<(u8, Operands, bool)> {
    match outcome.ok()?.request {
        Request::Place {
            code,
            operands,
            then_go,
        } => Some((code.number(), operands, then_go)),
        _ => None,
    }
}

/// A text, with the code that it places, the operands of X, Y and Z, and whether a GO follows.
struct Row(Port, Selection, &'static [u8], u8, [Option<i64>; 3], bool);

const PLACED: [Row; 10] = [
    Row(Port::M, ONE, b"bh+3", 4, [Some(3), None, None], false),
    Row(
        Port::M,
        ONE,
        b"MR2147483646",
        2,
        [Some(2147483646), None, None],
        false,
    ),
    Row(
        Port::M,
        Selection::One(Axis::Z),
        b"Go",
        3,
        [None, None, Some(0)],
        false,
    ),
    Row(
        Port::M,
        Selection::All,
        b"MR,100",
        2,
        [None, Some(100), None],
        false,
    ),
    Row(
        Port::M,
        Selection::All,
        b"MR1,",
        2,
        [Some(1), None, None],
        false,
    ),
    Row(
        Port::M,
        Selection::All,
        b"MA5,,-7",
        1,
        [Some(5), None, Some(-7)],
        false,
    ),
    Row(
        Port::M,
        Selection::All,
        b"GO1,0",
        3,
        [Some(1), Some(0), None],
        false,
    ),
    Row(Port::P, ONE, b"3PR", 2, [None, None, Some(0)], true),
    Row(Port::P, ONE, b"3pr-5", 2, [None, None, Some(-5)], true),
    Row(Port::P, ONE, b"PA7", 1, [None, Some(7), None], true),
];

#[test]
fn places(rt: HostRuntime) {
    for &Row(port, selection, text, code, [x, y, z], then_go) in &PLACED {
        let operands = [x, y, z, None, None, None, None, None];
        let result = placed(command(port, selection, text));
        assert_eq!(rt; result, Some((code, operands, then_go)));
    }
}

fn factor(text: &[u8]) -> Option<Decimal> {
    match read_setting(text).ok()? {
        Setting::UnitsOn(factor) => Some(factor),
        _ => None,
    }
}

/// The counts that MR places on X with a factor, or the number and the place of the refusal.
fn counts(setting: &[u8], text: &[u8]) -> Result<i64, (u8, usize)> {
    let settings = [Settings {
        units: factor(setting),
    }];
    let command = scaled(Port::M, ONE, &settings, text).map_err(told)?;
    match command.request.batch(Axis::X) {
        Some(Batch::One(entry)) => Ok(entry.operand),
        _ => Err((0, 0)),
    }
}

#[test]
fn units(rt: HostRuntime) {
    assert_eq!(rt; counts(b"UU2.5", b"MR1.1"), Ok(3));
    assert_eq!(rt; counts(b"UU2.5", b"MR-0.2"), Ok(-1));
    assert_eq!(rt; counts(b"UU2.5", b"MR0.2"), Ok(1));
    assert_eq!(rt; counts(b"UU2.5", b"MR-0.1"), Ok(0));
    assert_eq!(rt; counts(b"UU0.1", b"MR14"), Ok(1));
    assert_eq!(rt; counts(b"UU0.1", b"MR15"), Ok(2));
    assert_eq!(rt; counts(b"UU1000", b"MR2147484"), Err((8, 2)));
    assert_eq!(rt; counts(b"UU0.1", b"MR3000000000"), Err((8, 2)));
    assert_eq!(rt; counts(b"UU+0010", b"MR-1.25"), Ok(-13));
}

fn kill_input(text: &[u8]) -> Option<(u8, bool)> {
    match read_setting(text).ok()? {
        Setting::KillInput { bit, level } => Some((bit, level)),
        _ => None,
    }
}

#[test]
fn settings(rt: HostRuntime) {
    assert_eq!(rt; kill_input(b"IOK2,1"), Some((2, true)));
    assert_eq!(rt; kill_input(b"IOK-0,1"), Some((0, true)));
    assert_eq!(rt; kill_input(b"iok15,0"), Some((15, false)));
    assert!(rt; matches!(read_setting(b"iok,c"), Ok(Setting::NoKillInputs)));
    assert!(rt; matches!(read_setting(b"aS"), Ok(Setting::Select(Axis::S))));
    assert!(rt; matches!(read_setting(b"UF"), Ok(Setting::UnitsOff)));
}

#[test]
fn clears_and_records(rt: HostRuntime) -> Result<(), Fail> {
    let kill = command(Port::M, Selection::All, b"KS,,1");
    let request = kill.ok().ok_or("refused")?.request;
    assert!(rt; request.clears(Axis::Z) && !request.clears(Axis::X));
    let told = command(Port::P, ONE, b"08TP");
    let answer = told.ok().ok_or("refused")?;
    assert!(rt; matches!(answer.request, Request::Positions(Selection::One(Axis::S))));
    assert_eq!(rt; answer.last.number(), 8);
    let refusal = command(Port::M, ONE, b"##x").err().ok_or("taken")?;
    assert_eq!(rt; refusal.recorded(b"##x"), b"##".as_slice());
    Ok(())
}
