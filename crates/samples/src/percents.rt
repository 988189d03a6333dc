// Held numbers above 100 are the grade 100 in every operation.
use scales::{Percent, Scale, Short, Written};

fn held(value: u8) -> Percent {
    Percent { value }
}

#[test]
fn bounds_of_held_percents(rt: HostRuntime) {
    assert_eq!(rt; held(255).join(held(7)).value, 100);
    assert_eq!(rt; held(7).join(held(101)).value, 100);
    assert_eq!(rt; held(255).meet(held(101)).value, 100);
    assert_eq!(rt; held(200).meet(held(40)).value, 40);
    assert!(rt; held(255).at_or_below(held(100)));
    assert!(rt; held(100).at_or_below(held(101)));
    assert!(rt; !held(101).at_or_below(held(99)));
}

#[test]
fn blends_of_held_percents(rt: HostRuntime) {
    assert_eq!(rt; held(255).blend(held(37)).value, 37);
    assert_eq!(rt; held(37).blend(held(255)).value, 37);
    assert_eq!(rt; held(255).blend(held(101)).value, 100);
    assert_eq!(rt; held(95).blend(held(95)).value, 90);
    assert_eq!(rt; held(99).blend(held(1)).value, 0);
}

#[test]
fn levels_and_codes_of_held_percents(rt: HostRuntime) {
    assert_eq!(rt; held(180).level(), 100);
    assert_eq!(rt; held(180).code(), 100);
    assert_eq!(rt; held(180).short_code(), 100);
    assert_eq!(rt; Percent::height(), 100);
    assert!(rt; Percent::decode(100).is_some());
    assert!(rt; Percent::decode(101).is_none());
    assert!(rt; Percent::decode(356).is_none());
    assert!(rt; Percent::decode_short(101).is_none());
}
