use crate::tools::{MAKE, PASS, refused, run_drawn};
use kinds::carry::Carries;
use kinds::elements::{Map, Verdict};
use kinds::map::Maps;
use kinds::parity::Parities;
use kinds::verdict::Verdicts;
use netlist::refusal::Refusal::Length;

#[test]
fn parity_run(rt: HostRuntime) {
    let mut values = [false; 9];
    let xs = [true, false, true, true];
    assert_eq!(rt; run_drawn::<Parities>(&rt, &xs, &mut values), Ok(()));
    assert_eq!(rt;
        values,
        [true, false, true, true, true, true, false, false, true]
    );
}

#[test]
fn refusals(rt: HostRuntime) {
    let ran = |xs: &[bool], values: &mut [bool]| run_drawn::<Parities>(&rt, xs, values);
    assert_eq!(rt; ran(&[true; 4], &mut [false; 9]), Ok(()));
    refused(&rt, ran(&[true; 3], &mut [false; 8]), Length(3), (9, 3));
    refused(&rt, ran(&[true; 4], &mut [false; 8]), Length(8), (9, 8));
    refused(&rt, ran(&[true; 4], &mut [false; 10]), Length(10), (9, 10));
}

// Column 1 takes the carry, column 3 passes it on.
#[test]
fn carry_run(rt: HostRuntime) {
    let mut values = [PASS; 9];
    let xs = [PASS, MAKE, PASS, PASS];
    assert_eq!(rt; run_drawn::<Carries>(&rt, &xs, &mut values), Ok(()));
    assert_eq!(rt;
        [values[0], values[4], values[6], values[8]],
        [PASS, MAKE, MAKE, MAKE]
    );
}

#[test]
fn verdict_run(rt: HostRuntime) {
    let mut values = [Verdict::Equal; 9];
    let xs = [
        Verdict::Less,
        Verdict::Equal,
        Verdict::Greater,
        Verdict::Equal,
    ];
    assert_eq!(rt; run_drawn::<Verdicts>(&rt, &xs, &mut values), Ok(()));
    assert_eq!(rt;
        [values[4], values[6], values[8]].map(Verdict::number),
        [1, 2, 2]
    );
}

#[test]
fn map_run(rt: HostRuntime) {
    let next = Map::from(57);
    let mut values = [next; 9];
    assert_eq!(rt; run_drawn::<Maps>(&rt, &[next; 4], &mut values), Ok(()));
    assert_eq!(rt;
        [values[4], values[6], values[8]].map(u8::from),
        [78, 147, 228]
    );
}
