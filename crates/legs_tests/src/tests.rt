// Legs and measures against tables written out by hand.
use fault::Fault;
use legs::barred::Barred;
use legs::leg::Leg;
use legs::listed::Listed;
use legs::measure::Measure;
use legs::peak_first::PeakFirst;
use legs::phases::{Legs, Phases};
use legs::squared::Squared;
use legs::stepped::Stepped;
use std::test::Fail;

// The positions that a leg lets one move to, as a mask.
fn targets<L: Leg>(leg: &L, from: u8) -> u8 {
    (0..8)
        .filter(|&to| leg.permits(from, to))
        .fold(0, |mask, to| mask | 1 << to)
}

fn refusal<T: Drop>(answer: Result<T, Fault>) -> Option<(u8, usize)> {
    answer.err().map(|fault| (fault.number(), fault.place))
}

// Reach, stride, and the targets of positions 0 to 5.
const MOVES: [(u8, u8, [u8; 6]); 8] = [
    (1, 1, [0b011, 0b111, 0b110, 0, 0, 0]),
    (1, 2, [0b111, 0b111, 0b111, 0, 0, 0]),
    (1, 3, [0b111, 0b111, 0b111, 0, 0, 0]),
    (1, 4, [0b111, 0b111, 0b111, 0, 0, 0]),
    (2, 1, [0b00011, 0b00111, 0b01110, 0b11100, 0b11000, 0]),
    (2, 2, [0b00111, 0b01111, 0b11111, 0b11110, 0b11100, 0]),
    (2, 3, [0b01111, 0b11111, 0b11111, 0b11111, 0b11110, 0]),
    (2, 4, [0b11111, 0b11111, 0b11111, 0b11111, 0b11111, 0]),
];

#[test]
fn stepped_moves(rt: HostRuntime) -> Result<(), Fail> {
    for (reach, stride, rows) in MOVES {
        let leg = Stepped::new(reach, stride)?;
        for (from, row) in rows.iter().enumerate() {
            assert_eq!(rt; targets(&leg, from as u8), *row);
        }
        assert_eq!(rt; targets(&leg, 255), 0);
        assert!(rt; !leg.permits(0, 255));
    }
    Ok(())
}

#[test]
fn stepped_levels(rt: HostRuntime) -> Result<(), Fail> {
    for (reach, count, levels) in [(1, 3, [-1, 0, 1, 0, 0, 0]), (2, 5, [-2, -1, 0, 1, 2, 0])] {
        let leg = Stepped::new(reach, 1)?;
        assert_eq!(rt; leg.positions(), count);
        assert_eq!(rt; leg.level(leg.rest()), 0);
        assert_eq!(rt; leg.level(255), 0);
        for (position, level) in levels.iter().enumerate() {
            assert_eq!(rt; leg.level(position as u8), *level);
        }
    }
    assert_eq!(rt; targets(&Stepped::npc(), 0), 0b011);
    Ok(())
}

#[test]
fn stepped_refusals(rt: HostRuntime) {
    for (reach, stride, number) in [
        (0, 1, 15),
        (3, 4, 15),
        (255, 255, 15),
        (0, 0, 15),
        (1, 0, 16),
        (2, 5, 16),
        (2, 255, 16),
    ] {
        assert_eq!(rt; refusal(Stepped::new(reach, stride)), Some((number, 0)));
    }
}

fn listed(levels: &[i8], masks: &[u8], rest: u8) -> Option<(u8, usize)> {
    refusal(Listed::new(levels, masks, rest))
}

#[test]
fn listed_refusals(rt: HostRuntime) {
    // how many levels and masks
    assert_eq!(rt; listed(&[], &[], 0), Some((11, 0)));
    assert_eq!(rt; listed(&[0], &[1], 0), Some((11, 0)));
    assert_eq!(rt; listed(&[-2, -1, 0, 1, 2, 3], &[63; 6], 0), Some((11, 0)));
    assert_eq!(rt; listed(&[-1, 1], &[3], 0), Some((11, 0)));
    assert_eq!(rt; listed(&[-1, 1], &[3; 3], 0), Some((11, 0)));
    // levels, before masks and rest
    assert_eq!(rt; listed(&[-3, 1], &[0; 2], 9), Some((12, 0)));
    assert_eq!(rt; listed(&[1, 3], &[3; 2], 0), Some((12, 1)));
    assert_eq!(rt; listed(&[0, 0], &[3; 2], 0), Some((12, 1)));
    assert_eq!(rt; listed(&[-1, 1, 0, 0], &[15; 4], 0), Some((12, 2)));
    // masks, before the rest
    assert_eq!(rt; listed(&[-1, 1], &[2, 1], 9), Some((13, 0)));
    assert_eq!(rt; listed(&[-1, 1], &[3, 1], 9), Some((13, 1)));
    assert_eq!(rt; listed(&[-1, 1], &[3, 6], 0), Some((13, 1)));
    assert_eq!(rt; listed(&[-2, -1, 0, 1, 2], &[63; 5], 0), Some((13, 0)));
    // the rest
    assert_eq!(rt; listed(&[-1, 1], &[3; 2], 2), Some((14, 0)));
    assert_eq!(rt; listed(&[-1, 1], &[3; 2], 255), Some((14, 0)));
    // the edges of what is taken
    assert_eq!(rt; listed(&[-2, 2], &[1, 2], 1), None);
    assert_eq!(rt; listed(&[-2, -1, 0, 1, 2], &[31; 5], 4), None);
}

#[test]
fn listed_answers(rt: HostRuntime) -> Result<(), Fail> {
    let leg = Listed::new(&[-2, 0, 1], &[0b101, 0b011, 0b110], 1)?;
    assert_eq!(rt; leg.positions(), 3);
    assert_eq!(rt; leg.rest(), 1);
    for (position, level, mask) in [
        (0, -2, 0b101),
        (1, 0, 0b011),
        (2, 1, 0b110),
        (3, 0, 0),
        (5, 0, 0),
        (255, 0, 0),
    ] {
        assert_eq!(rt; leg.level(position), level);
        assert_eq!(rt; targets(&leg, position), mask);
        assert!(rt; !leg.permits(position, 255));
    }
    Ok(())
}

#[test]
fn bars(rt: HostRuntime) {
    let mut leg = Barred::new(Stepped::npc());
    assert!(rt; !leg.is_barred());
    for (bar, rows) in [
        (false, [3, 7, 6, 0]),
        (true, [1, 2, 4, 0]),
        (true, [1, 2, 4, 0]),
        (false, [3, 7, 6, 0]),
    ] {
        leg.set_bar(bar);
        assert_eq!(rt; leg.is_barred(), bar);
        assert_eq!(rt; leg.positions(), 3);
        assert_eq!(rt; leg.rest(), 1);
        assert_eq!(rt; leg.level(0), -1);
        assert_eq!(rt; leg.below().level(2), 1);
        for (from, row) in rows.iter().enumerate() {
            assert_eq!(rt; targets(&leg, from as u8), *row);
        }
    }
}

#[test]
fn legs_by_phase(rt: HostRuntime) -> Result<(), Fail> {
    let two = Listed::new(&[-1, 1], &[3, 3], 1)?;
    let five = Stepped::new(2, 4)?;
    let mut legs = Legs {
        a: Barred::new(Stepped::npc()),
        b: Barred::new(two),
        c: Barred::new(five),
    };
    for (phase, count, rest, top) in [
        (0, 3, 1, 0),
        (1, 2, 1, 1),
        (2, 5, 2, -1),
        (3, 5, 2, -1),
        (255, 5, 2, -1),
    ] {
        assert_eq!(rt; legs.positions(phase), count);
        assert_eq!(rt; legs.rest(phase), rest);
        assert_eq!(rt; legs.level(phase, 1), top);
    }
    legs.set_bar(1, true);
    assert!(rt; legs.permits(0, 0, 1) && !legs.permits(1, 0, 1) && legs.permits(2, 0, 1));
    legs.set_bar(2, true);
    legs.set_bar(1, false);
    assert!(rt; legs.permits(0, 0, 1) && legs.permits(1, 0, 1) && !legs.permits(2, 0, 1));
    assert!(rt; legs.permits(2, 4, 4) && !legs.permits(2, 5, 5));
    Ok(())
}

#[test]
fn costs(rt: HostRuntime) {
    let squared = Squared;
    let peak_first = PeakFirst;
    assert_eq!(rt; squared.start(), 0);
    assert_eq!(rt;
        squared.after(squared.start(), -161_218_560),
        25_991_424_088_473_600
    );
    assert_eq!(rt; peak_first.start(), (0, 0));
    assert_eq!(rt; peak_first.after(peak_first.start(), -3), (3, 3));
    assert_eq!(rt; Squared::highest(), 389_871_361_327_104_000);
    assert_eq!(rt; PeakFirst::highest(), (161_218_560, 2_418_278_400));
}
