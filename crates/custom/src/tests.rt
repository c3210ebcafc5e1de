// The user's leg under a bar and beside the library's legs, his measure, and a refusal by a number of his own.
use crate::climbing::Climbing;
use crate::dead_band::DeadBand;
use fault::{Fault, Layer, Rule};
use legs::barred::Barred;
use legs::leg::Leg;
use legs::measure::Measure;
use legs::phases::{Legs, Phases};
use legs::stepped::Stepped;

#[test]
fn climbing_under_a_bar(rt: HostRuntime) {
    let mut legs = Legs {
        a: Barred::new(Climbing),
        b: Barred::new(Stepped::npc()),
        c: Barred::new(Climbing),
    };
    assert!(rt; legs.permits(0, 2, 0) && !legs.permits(0, 0, 2) && !legs.permits(1, 2, 0));
    legs.set_bar(0, true);
    assert!(rt; !legs.permits(0, 2, 0) && legs.permits(0, 2, 2) && !legs.permits(0, 3, 3));
    assert!(rt; legs.permits(2, 2, 0));
    assert_eq!(rt; legs.level(0, 2), 1);
}

#[test]
fn a_difference_within_the_band_is_free(rt: HostRuntime) {
    let measure = DeadBand { width: 100 };
    assert_eq!(rt; measure.after(measure.start(), -100), 0);
    assert_eq!(rt; measure.after(measure.start(), 101), 1);
}

#[test]
fn a_refusal_by_a_number_of_ones_own(rt: HostRuntime) {
    let own = Fault {
        layer: Layer::Leg,
        number: 200,
        place: 3,
    };
    assert_eq!(rt; own.rule(), None);
    match format!(in rt.alloc(); "{own}") {
        Ok(text) => assert_eq!(rt; text.as_str(), "no leg 200 3"),
        Err(_) => assert!(rt; false),
    }
    // a layer and a number that do not belong together name no rule either
    let mixed = Fault {
        layer: Layer::Console,
        number: Rule::EntryLimits.number(),
        place: 0,
    };
    assert_eq!(rt; mixed.rule(), None);
    assert_eq!(rt; Rule::EntryLimits.at(6).rule(), Some(Rule::EntryLimits));
}
