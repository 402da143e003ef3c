use crate::tools::{MAKE, PASS};
use kinds::carry::Carries;
use kinds::elements::{Map, Verdict};
use kinds::fold::fold;
use kinds::kind::Kind;
use kinds::map::Maps;
use kinds::parity::Parities;
use kinds::verdict::Verdicts;

#[test]
fn carries(rt: HostRuntime) {
    let both = Carries::product(MAKE, PASS);
    assert_eq!(rt; both, MAKE);
    assert_eq!(rt; Carries::bit(both, 0), 1);
    assert_eq!(rt; Carries::bit(both, 1), 0);
    assert_eq!(rt; Carries::bit(PASS, 2), 0);
    assert_eq!(rt; fold::<Carries>(&[]), PASS);
}

#[test]
fn parities(rt: HostRuntime) {
    assert!(rt; fold::<Parities>(&[true, false, true, true]));
    assert!(rt; !fold::<Parities>(&[]));
}

#[test]
fn verdicts(rt: HostRuntime) {
    assert_eq!(rt;
        Verdicts::product(Verdict::Less, Verdict::Greater).number(),
        2
    );
    assert_eq!(rt;
        Verdicts::product(Verdict::Less, Verdict::Equal).number(),
        1
    );
    assert_eq!(rt; Verdicts::bit(Verdict::Greater, 1), 1);
    assert_eq!(rt; Verdicts::unit().number(), 0);
}

#[test]
fn maps(rt: HostRuntime) {
    let low = Map::from(0);
    let high = Map::from(225);
    assert_eq!(rt; u8::from(Maps::product(low, high)), 85);
    assert_eq!(rt; u8::from(Maps::product(Map::from(27), Map::from(27))), 228);
    assert_eq!(rt; u8::from(Maps::unit()), 228);
    assert_eq!(rt; Maps::size(), 80);
}
