//! A queue that fills, and one whose places are used again.
use crate::axis::{AxisQueue, COMMAND_PLACES};
use crate::entry::{Batch, Code, Entry};
use std::test::Fail;

fn placed(queue: &mut AxisQueue, code: Code, operand: i64) -> u8 {
    match queue.place(Batch::One(Entry { code, operand })) {
        Ok(()) => 0,
        Err(refusal) => refusal.number(),
    }
}

#[test]
fn arguments_run_out_before_commands(rt: HostRuntime) {
    let mut queue = AxisQueue::new();
    for operand in 0..64 {
        assert_eq!(rt; placed(&mut queue, Code::Ma, operand), 0);
    }
    assert_eq!(rt; placed(&mut queue, Code::Ma, 64), 10);
    assert_eq!(rt; placed(&mut queue, Code::Go, 64), 0);
    assert_eq!(rt; queue.clear(), 65);
    assert_eq!(rt; queue.free_places(), COMMAND_PLACES);
}

#[test]
fn places_are_used_again(rt: HostRuntime) -> Result<(), Fail> {
    let mut queue = AxisQueue::new();
    assert_eq!(rt; placed(&mut queue, Code::Ws, 0), 0);
    for round in 0..300u32 {
        let operand = i64::from(round);
        assert_eq!(rt; placed(&mut queue, Code::Mr, operand), 0);
        assert_eq!(rt; placed(&mut queue, Code::Ws, operand), 0);
        let _ = queue.take();
        let head = queue.take().ok_or("empty")?;
        assert_eq!(rt; head.entry.operand, operand);
        assert_eq!(rt; head.serial, 2 * round + 2);
    }
    Ok(())
}
