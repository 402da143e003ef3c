use crate::tools::opened;
use answers::measure::Measure;
use answers::refusal::{Refusal, Side};
use sheet::sheet::{MOST_JOINS, Sheet};
use std::test::Fail;

#[test]
fn widths(rt: HostRuntime) {
    let mut sheet = Sheet::bare();
    assert_eq!(rt; sheet.columns(), 1);
    assert_eq!(rt; sheet.open(64), Ok(()));
    for refused in [65, 0, usize::MAX] {
        assert_eq!(rt; sheet.open(refused), Err(Refusal::Width(refused)));
    }
    assert_eq!(rt; sheet.columns(), 64);
    assert_eq!(rt; sheet.open(1), Ok(()));
    assert_eq!(rt; sheet.columns(), 1);
}

// A full sheet refuses a join that would be good as full, and any other as it did before.
#[test]
fn full(rt: HostRuntime) -> Result<(), Fail> {
    let mut sheet = opened(&rt, 2);
    for node in 2..2 + MOST_JOINS {
        assert_eq!(rt; sheet.join(0, 1), Ok(node));
    }
    assert_eq!(rt; sheet.join(0, 1), Err(Refusal::Full));
    assert_eq!(rt; sheet.join(1, 0), Err(Refusal::Gap(1, 0)));
    assert_eq!(rt; sheet.join(0, 1026), Err(Refusal::NoNode(1026, Side::High)));
    assert_eq!(rt; sheet.lay(1), Err(Refusal::NotBare(1024)));
    assert_eq!(rt; sheet.output(1), Some(2));
    let measure = Measure {
        joins: 1024,
        depth: 1,
        fan_out: 1024,
    };
    assert_eq!(rt; sheet.close()?.measure(), measure);
    assert_eq!(rt; sheet.undo(), Ok(1023));
    assert_eq!(rt; sheet.join(0, 1), Ok(1025));
    Ok(())
}
