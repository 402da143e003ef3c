use crate::tools::opened;
use answers::measure::Measure;
use std::process::Abort;
use std::test::Fail;

// Each family at some widths: its number, the width, and the joins, depth and fan-out that it has there.
const MEASURES: [(usize, usize, usize, usize, usize); 24] = [
    (1, 1, 0, 0, 0),
    (2, 1, 0, 0, 0),
    (3, 1, 0, 0, 0),
    (4, 1, 0, 0, 0),
    (1, 2, 1, 1, 1),
    (2, 2, 1, 1, 1),
    (3, 2, 1, 1, 1),
    (4, 2, 1, 1, 1),
    (1, 3, 2, 2, 1),
    (2, 3, 3, 2, 2),
    (3, 3, 2, 2, 1),
    (4, 3, 2, 2, 1),
    (1, 8, 12, 3, 4),
    (2, 8, 17, 3, 3),
    (3, 8, 11, 4, 3),
    (4, 8, 12, 4, 3),
    (1, 63, 186, 6, 31),
    (2, 63, 315, 6, 6),
    (3, 63, 114, 10, 5),
    (4, 63, 186, 7, 6),
    (1, 64, 192, 6, 32),
    (2, 64, 321, 6, 6),
    (3, 64, 120, 10, 6),
    (4, 64, 192, 7, 6),
];

#[test]
fn measures(rt: HostRuntime) -> Result<(), Fail> {
    for (family, width, joins, depth, fan_out) in MEASURES {
        let mut sheet = opened(&rt, width);
        assert_eq!(rt;
            sheet.lay(family),
            Ok(joins),
            "family {family} at width {width}"
        );
        let measure = Measure {
            joins,
            depth,
            fan_out,
        };
        assert_eq!(rt;
            sheet.close()?.measure(),
            measure,
            "family {family} at width {width}"
        );
    }
    Ok(())
}

const SKLANSKY: [(usize, usize); 12] = [
    (0, 1),
    (2, 3),
    (4, 5),
    (6, 7),
    (8, 2),
    (8, 9),
    (10, 6),
    (10, 11),
    (13, 4),
    (13, 10),
    (13, 14),
    (13, 15),
];

const KOGGE_STONE: [(usize, usize); 17] = [
    (0, 1),
    (1, 2),
    (2, 3),
    (3, 4),
    (4, 5),
    (5, 6),
    (6, 7),
    (0, 9),
    (8, 10),
    (9, 11),
    (10, 12),
    (11, 13),
    (12, 14),
    (0, 17),
    (8, 18),
    (15, 19),
    (16, 20),
];

const BRENT_KUNG: [(usize, usize); 11] = [
    (0, 1),
    (2, 3),
    (4, 5),
    (6, 7),
    (8, 9),
    (10, 11),
    (12, 13),
    (12, 10),
    (8, 2),
    (12, 4),
    (15, 6),
];

const HAN_CARLSON: [(usize, usize); 12] = [
    (0, 1),
    (2, 3),
    (4, 5),
    (6, 7),
    (8, 9),
    (9, 10),
    (10, 11),
    (8, 13),
    (12, 14),
    (8, 2),
    (12, 4),
    (15, 6),
];

// The joins of a family at width 8 are these, in this order.
fn lays(rt: &impl Abort, family: usize, pairs: &[(usize, usize)]) -> Result<(), Fail> {
    let mut sheet = opened(rt, 8);
    assert_eq!(rt; sheet.lay(family), Ok(pairs.len()));
    let closed = sheet.close()?;
    for (join, pair) in pairs.iter().enumerate() {
        assert_eq!(rt; closed.operands(join), Some(*pair));
    }
    assert_eq!(rt; closed.operands(pairs.len()), None);
    Ok(())
}

#[test]
fn order_of_joins(rt: HostRuntime) -> Result<(), Fail> {
    lays(&rt, 1, &SKLANSKY)?;
    lays(&rt, 2, &KOGGE_STONE)?;
    lays(&rt, 3, &BRENT_KUNG)?;
    lays(&rt, 4, &HAN_CARLSON)
}
