use crate::tools::opened;
use answers::measure::Measure;
use answers::refusal::{Refusal, Side};
use std::test::Fail;

#[test]
fn joins_of_width_four(rt: HostRuntime) {
    let mut sheet = opened(&rt, 4);
    assert_eq!(rt; sheet.join(0, 1), Ok(4));
    assert_eq!(rt; sheet.join(1, 2), Ok(5));
    assert_eq!(rt; sheet.join(4, 5), Err(Refusal::Gap(4, 5)));
    assert_eq!(rt; sheet.join(4, 2), Ok(6));
    assert_eq!(rt; sheet.output(2), Some(6));
    assert_eq!(rt; sheet.output(3), None);
    assert_eq!(rt; sheet.output(4), None);
    assert_eq!(rt; sheet.undo(), Ok(2));
    assert_eq!(rt; sheet.output(2), None);
    assert_eq!(rt; sheet.join(5, 3), Ok(6));
    assert_eq!(rt; sheet.joins(), 3);
}

#[test]
fn four_bare_columns(rt: HostRuntime) {
    let mut sheet = opened(&rt, 4);
    assert_eq!(rt; sheet.undo(), Err(Refusal::Bare));
    assert_eq!(rt; sheet.close().err(), Some(Refusal::Uncovered(1)));
}

// Low is checked first, then high, then the gap.
#[test]
fn order_of_a_join(rt: HostRuntime) {
    let mut sheet = opened(&rt, 2);
    assert_eq!(rt; sheet.join(2, 3), Err(Refusal::NoNode(2, Side::Low)));
    assert_eq!(rt; sheet.join(0, 3), Err(Refusal::NoNode(3, Side::High)));
    assert_eq!(rt; sheet.join(0, 0), Err(Refusal::Gap(0, 0)));
    assert_eq!(rt; sheet.join(1, 0), Err(Refusal::Gap(1, 0)));
    assert_eq!(rt; sheet.joins(), 0);
}

#[test]
fn lay_checks_the_family_first(rt: HostRuntime) {
    let mut sheet = opened(&rt, 2);
    assert_eq!(rt; sheet.join(0, 1), Ok(2));
    assert_eq!(rt; sheet.lay(0), Err(Refusal::NoFamily(0)));
    assert_eq!(rt; sheet.lay(5), Err(Refusal::NoFamily(5)));
    assert_eq!(rt; sheet.lay(1), Err(Refusal::NotBare(1)));
}

#[test]
fn closed_and_reopened(rt: HostRuntime) -> Result<(), Fail> {
    let mut sheet = opened(&rt, 3);
    assert_eq!(rt; sheet.join(0, 1), Ok(3));
    assert_eq!(rt; sheet.join(1, 2), Ok(4));
    assert_eq!(rt; sheet.join(0, 4), Ok(5));
    let closed = sheet.close()?;
    assert_eq!(rt; closed.columns(), 3);
    assert_eq!(rt; closed.operands(2), Some((0, 4)));
    assert_eq!(rt; closed.operands(3), None);
    assert_eq!(rt; closed.output(2), Some(5));
    let measure = Measure {
        joins: 3,
        depth: 2,
        fan_out: 2,
    };
    assert_eq!(rt; closed.measure(), measure);
    closed.reopen();
    assert_eq!(rt; sheet.undo(), Ok(2));
    let refusal = sheet.close().err();
    assert_eq!(rt; refusal, Some(Refusal::Uncovered(2)));
    assert_eq!(rt; refusal.map(|r| r.number()), Some(8));
    Ok(())
}
