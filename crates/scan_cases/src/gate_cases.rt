use crate::tools::refused;
use netlist::gate::{AND, Gate, NOT, OR, XOR, good_gates};
use netlist::refusal::Refusal::{self, BadGate, BadNet, InputByte, Length, Short};
use netlist::refusal::Slots;
use netlist::simulation::{MOST_GATES, simulate};
use netlist::value::gate_value;
use std::test::Fail;

#[test]
fn each_arity(rt: HostRuntime) {
    let gates = [
        Gate::constant(true),
        Gate::one(NOT, 0),
        Gate::two(AND, 0, 2),
        Gate::two(OR, 3, 1),
        Gate::two(XOR, 0, 4),
    ];
    let mut values = [9; 7];
    assert_eq!(rt; simulate(&[1, 0], &gates, &mut values), Ok(()));
    assert_eq!(rt; values, [1, 0, 1, 0, 1, 0, 0]);
}

// Row 2a + b: table 2 has a one at row 1 alone, where a is 0 and b is 1.
#[test]
fn row_of_two(rt: HostRuntime) {
    let gate = Gate::two(2, 0, 1);
    for (a, b, value) in [(0, 1, 1), (1, 0, 0), (255, 255, 0)] {
        assert_eq!(rt; gate_value(gate, a, b), value, "at {a} and {b}");
    }
}

#[test]
fn good_and_bad(rt: HostRuntime) {
    assert!(rt; Gate::two(AND, 0, 1).is_good(2, 0));
    assert!(rt; !Gate::two(AND, 0, 2).is_good(2, 0));
    assert!(rt; !Gate::two(16, 0, 1).is_good(2, 0));
    assert!(rt; !Gate::one(4, 0).is_good(2, 0));
    assert!(rt; Gate::constant(false).is_good(0, 0));
    assert!(rt; Gate::one(NOT, usize::MAX).is_good(usize::MAX, 1));
    assert_eq!(rt; good_gates(&[Gate::one(NOT, 0), Gate::one(NOT, 2)], 1), 1);
}

#[test]
fn refusals(rt: HostRuntime) {
    let first = [Gate::one(NOT, 0)];
    let own = [Gate::one(NOT, 2)];
    assert_eq!(rt; simulate(&[0], &first, &mut [9; 2]), Ok(()));
    refused(&rt, simulate(&[0], &first, &mut [9; 1]), Length(1), (9, 1));
    refused(&rt, simulate(&[2], &first, &mut [9; 3]), Length(3), (9, 3));
    refused(
        &rt,
        simulate(&[0; 1025], &[], &mut [9; 1024]),
        Length(1025),
        (9, 1025),
    );
    assert_eq!(rt; simulate(&[1; 1024], &[], &mut [9; 1024]), Ok(()));
    refused(
        &rt,
        simulate(&[1, 2], &own, &mut [9; 3]),
        InputByte(1),
        (12, 1),
    );
    refused(
        &rt,
        simulate(&[1, 1], &own, &mut [9; 3]),
        BadGate(0),
        (13, 0),
    );
}

// Simulates so many gates without inputs.
fn many(rt: &HostRuntime, count: usize) -> Result<Result<(), Refusal>, Fail> {
    let gates = vec![in rt.alloc(); Gate::constant(false); count]?;
    let mut values = vec![in rt.alloc(); 9; count]?;
    Ok(simulate(&[], &gates, &mut values))
}

#[test]
fn most_gates(rt: HostRuntime) -> Result<(), Fail> {
    const MORE: usize = MOST_GATES + 1;
    assert_eq!(rt; many(&rt, MOST_GATES)?, Ok(()));
    refused(&rt, many(&rt, MORE)?, Length(MORE), (9, MORE));
    Ok(())
}

// A refusal is told with its number and value.
#[test]
fn told(rt: HostRuntime) -> Result<(), Fail> {
    for (refusal, start) in [
        (Length(17), "refused 9 (17): "),
        (Short(Slots::Gates), "refused 10 (gates): "),
        (InputByte(3), "refused 12 (3): "),
        (BadGate(4), "refused 13 (4): "),
        (BadNet(5), "refused 13 (5): "),
    ] {
        let text = format!(in rt.alloc(); "{refusal}")?;
        assert!(rt; text.starts_with(start), "{text}");
    }
    Ok(())
}
