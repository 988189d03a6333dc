// Verdicts, supplier sets, and turned scales and pairs inside each other.
use scales::{Belief, Pair, Percent, Scale, Short, Suppliers, Turned, Verdict, Written};

#[test]
fn verdicts(rt: HostRuntime) {
    assert_eq!(rt; Verdict::Unknown.join(Verdict::Inconsistent).code(), 3);
    assert_eq!(rt; Verdict::Unknown.meet(Verdict::Inconsistent).code(), 0);
    assert!(rt; !Verdict::Unknown.at_or_below(Verdict::Inconsistent));
    assert!(rt; !Verdict::Inconsistent.at_or_below(Verdict::Unknown));
    assert!(rt; Verdict::decode(4).is_none());
    assert!(rt; Verdict::decode(256).is_none());
    assert!(rt; Verdict::decode_short(255).is_none());
}

#[test]
fn supplier_sets(rt: HostRuntime) {
    let left = Suppliers { members: 0b1011 };
    let right = Suppliers { members: 0b0110 };
    assert_eq!(rt; left.join(right).code(), 15);
    assert_eq!(rt; left.blend(right).code(), 2);
    assert_eq!(rt; left.level(), 3);
    assert_eq!(rt; Suppliers::highest().level(), 16);
    assert!(rt; !right.at_or_below(left));
    assert!(rt; (0..=u16::MAX).all(|code| Suppliers::decode(code).is_some()));
}

fn doubt(value: u8) -> Turned<Percent> {
    Turned {
        grade: Percent { value },
    }
}

#[test]
fn turned_twice_is_as_before(rt: HostRuntime) {
    let low = Turned { grade: doubt(30) };
    let high = Turned { grade: doubt(200) };
    assert!(rt; low.at_or_below(high));
    assert!(rt; !high.at_or_below(low));
    assert_eq!(rt; low.join(high).code(), 100);
    assert_eq!(rt; low.level(), 30);
    assert_eq!(rt; doubt(30).level(), 70);
    assert_eq!(rt; doubt(30).blend(doubt(50)).code(), 50);
    assert!(rt; Turned::<Percent>::decode(101).is_none());
    assert!(rt; Turned::<Verdict>::decode_short(3).is_some());
}

#[test]
fn beliefs(rt: HostRuntime) {
    let left: Belief = Pair {
        first: Percent { value: 40 },
        second: doubt(30),
    };
    let right: Belief = Pair {
        first: Percent { value: 60 },
        second: doubt(50),
    };
    assert_eq!(rt; left.join(right).code(), 15390);
    assert!(rt; !left.at_or_below(right));
    assert_eq!(rt; Belief::lowest().code(), 100);
    assert_eq!(rt; Belief::highest().level(), 200);
    assert!(rt; Belief::decode(25700).is_some());
    assert!(rt; Belief::decode(25701).is_none());
    assert!(rt; Belief::decode(25856).is_none());
}

#[test]
fn pair_of_turned_verdicts(rt: HostRuntime) {
    let both: Pair<Turned<Verdict>, Verdict> = Pair {
        first: Turned {
            grade: Verdict::Unknown,
        },
        second: Verdict::Inconsistent,
    };
    assert_eq!(rt; both.code(), 258);
    assert_eq!(rt; both.level(), 2);
    assert_eq!(rt; Pair::<Turned<Verdict>, Verdict>::height(), 4);
    assert!(rt; Turned { grade: both }.at_or_below(Turned { grade: both }));
}
