//! Steps of each drive, row by row.
use crate::locked::Locked;
use drive::axis::{AXES, Axis};
use drive::health::Health;
use drive::motion::{Decline, Drive, halt_all};
use drives::counting::Counting;
use drives::ratio::Ratio;
use drives::reporting::{Link, Reporting};
use motors::bank::Bank;
use motors::motor::Motor;
use motors::ranged::Ranged;

const SILENT: Health = Health { bits: 0 };

/// rate, start, target, and the position after one advance
const COUNTED: [(i64, i64, i64, i64); 6] = [
    (2, 0, 5, 2),
    (2, 0, -5, -2),
    (2, 4, 5, 5),
    (0, 0, 5, 1),
    (2_000_000, 0, 3_000_000, 1_000_000),
    (1, 9_000_000_000, 0, 2_147_483_645),
];

#[test]
fn counting_moves_by_its_rate(rt: HostRuntime) {
    for (rate, start, target, next) in COUNTED {
        let mut drive = Counting::new(&[rate; AXES], &[start; AXES]);
        assert!(rt; drive.begin(Axis::Y, target).is_ok());
        drive.advance(&[], SILENT);
        assert!(rt; drive.position(Axis::Y) == next);
        assert!(rt; drive.target(Axis::Y) == target);
        assert!(rt; drive.is_still(Axis::X));
    }
}

/// target of Z from 0, its reading, the health bits, and where it then stands and whether it is down
const REPORTED: [(i64, i64, u8, i64, bool); 7] = [
    (9, 4, 4, 4, false),
    (9, 0, 4, 0, false),
    (9, 9, 4, 9, false),
    (9, 10, 4, 0, true),
    (9, -1, 4, 0, true),
    (-9, -4, 255, -4, false),
    (9, 4, 251, 0, true),
];

#[test]
fn reporting_stands_where_it_is_told(rt: HostRuntime) {
    for (target, reading, bits, next, down) in REPORTED {
        let mut drive = Reporting::new(&[0; AXES]);
        assert!(rt; drive.begin(Axis::Z, target).is_ok());
        drive.advance(&[0, 0, reading], Health { bits });
        assert!(rt; drive.position(Axis::Z) == next);
        assert!(rt; drive.is_down(Axis::Z) == down);
    }
}

#[test]
fn a_down_axis_comes_up_and_goes_on(rt: HostRuntime) {
    let mut drive = Reporting::new(&[0; AXES]);
    drive.advance(&[], SILENT);
    assert!(rt; drive.begin(Axis::X, 5) == Err(Decline::Down));
    drive.advance(&[0], Health { bits: 1 });
    assert!(rt; drive.begin(Axis::X, 5).is_ok());
    assert!(rt; drive.begin(Axis::X, 2_147_483_647) == Err(Decline::Reach));
    assert!(rt; drive.target(Axis::X) == 5);
}

/// A bank of one's own: each axis stands at 3 and is bound for it, and X is down.
fn bank() -> Bank<Link> {
    let mut motors = [Motor::still(Ranged::near(3), Link { down: false }); AXES];
    motors[0].own = Link { down: true };
    Bank::new(motors)
}

#[test]
fn a_bank_whose_rule_is_steady_is_a_drive(rt: HostRuntime) {
    let mut drive = bank();
    assert!(rt; Drive::least(&drive, Axis::Y) == -2_147_483_646);
    assert!(rt; Drive::greatest(&drive, Axis::Y) == 2_147_483_646);
    assert!(rt; Drive::is_down(&drive, Axis::X) && !Drive::is_down(&drive, Axis::Y));
    assert!(rt; Drive::begin(&mut drive, Axis::X, 5) == Err(Decline::Down));
    assert!(rt; Drive::begin(&mut drive, Axis::Y, 2_147_483_647) == Err(Decline::Reach));
    assert!(rt; Drive::begin(&mut drive, Axis::Y, 9).is_ok());
    assert!(rt; Drive::target(&drive, Axis::Y) == 9 && Drive::target(&drive, Axis::X) == 3);
    Drive::advance(&mut drive, &[3, 7], Health { bits: 3 });
    assert!(rt; Drive::position(&drive, Axis::Y) == 7 && !Drive::is_down(&drive, Axis::X));
    Drive::halt(&mut drive, Axis::Y);
    assert!(rt; Drive::target(&drive, Axis::Y) == 7);
    assert!(rt; Ratio::new(drive, 2).position(Axis::Y) == 3);
}

/// Fifty steps of the counting drive to one count of the top, by 10 and then by 5.
#[test]
fn ratio_stands_over_ratio_over_counting(rt: HostRuntime) {
    let counting = Counting::new(&[100; AXES], &[0; AXES]);
    let mut drive = Ratio::new(Ratio::new(counting, 10), 5);
    assert!(rt; drive.greatest(Axis::X) == 42_949_672);
    assert!(rt; drive.least(Axis::X) == -42_949_672);
    assert!(rt; drive.begin(Axis::X, -3).is_ok());
    assert!(rt; drive.target(Axis::X) == -3);
    drive.advance(&[], SILENT);
    assert!(rt; drive.position(Axis::X) == -2);
    assert!(rt; !drive.is_still(Axis::X));
    drive.advance(&[], SILENT);
    assert!(rt; drive.position(Axis::X) == -3);
    assert!(rt; drive.is_still(Axis::X));
    assert!(rt; drive.begin(Axis::X, 42_949_673) == Err(Decline::Reach));
    assert!(rt; drive.begin(Axis::X, i64::MIN) == Err(Decline::Reach));
    assert!(rt; drive.begin(Axis::X, 42_949_672).is_ok());
    drive.advance(&[], SILENT);
    halt_all(&mut drive);
    assert!(rt; drive.is_still(Axis::X) && drive.position(Axis::X) == -1);
}

#[test]
fn steps_to_a_count_are_from_1_to_1000(rt: HostRuntime) {
    for (steps, position) in [(0, 2_000_999), (-7, 2_000_999), (7, 285_857), (5000, 2000)] {
        let drive = Ratio::new(Counting::new(&[1; AXES], &[2_000_999; AXES]), steps);
        assert!(rt; drive.position(Axis::S) == position);
    }
}

#[test]
fn a_locked_drive_never_begins(rt: HostRuntime) {
    let mut drive = Locked;
    assert!(rt; drive.begin(Axis::R, 0) == Err(Decline::Down));
    assert!(rt; drive.is_still(Axis::R));
}
