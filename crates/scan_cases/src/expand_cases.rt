use crate::tools::{MAKE, PASS, STOP, drawn, refused};
use expansion::expand::expand;
use kinds::carry::Carries;
use kinds::elements::{Map, Verdict};
use kinds::kind::Kind;
use kinds::map::Maps;
use kinds::parity::Parities;
use kinds::verdict::Verdicts;
use netlist::gate::Gate;
use netlist::refusal::Refusal::{self, BadGate, BadNet, Length, Short};
use netlist::refusal::Slots;
use netlist::simulation::simulate;
use scan::run::run;
use sheet::sheet::closed::ClosedSheet;
use std::iter;
use std::process::Abort;
use std::test::Fail;

// The bits of the elements, in order.
fn bits<K: Kind>(rt: &impl AllocGlobal, elements: &[K::Element]) -> Result<Vec<u8>, Fail> {
    Ok(
        elements
            .iter()
            .flat_map(|x| (0..K::NETS).map(move |b| K::bit(*x, b)))
            .collect(rt.alloc())?,
    )
}

// The signals of the expanded sheet, and the nets of its nodes, on the bits of the elements.
fn signals<K: Kind>(
    rt: &(impl AllocGlobal + Abort),
    closed: &ClosedSheet,
    elements: &[K::Element],
) -> Result<(Vec<u8>, Vec<usize>), Fail> {
    let inputs = bits::<K>(rt, elements)?;
    let m = inputs.len();
    let mut nets = (0..m).collect::<Vec<usize>>(rt.alloc())?;
    nets.extend(iter::repeat_n(0, closed.joins() * K::NETS))?;
    let mut gates = vec![in rt.alloc(); Gate::constant(false); closed.joins() * K::size()]?;
    assert_eq!(rt;
        expand::<K>(closed, m, &mut gates, 0, &mut nets),
        Ok(gates.len())
    );
    let mut signals = vec![in rt.alloc(); 0; m + gates.len()]?;
    assert_eq!(rt; simulate(&inputs, &gates, &mut signals), Ok(()));
    Ok((signals, nets))
}

// Runs and expands the drawn sheet over the same elements: the nets of each node show its value.
fn agree<K: Kind>(rt: &(impl AllocGlobal + Abort), elements: &[K::Element]) -> Result<(), Fail> {
    let sheet = drawn(rt);
    let closed = sheet.close()?;
    let mut values = vec![in rt.alloc(); K::unit(); 9]?;
    assert_eq!(rt; run::<K>(&closed, elements, &mut values), Ok(()));
    let bits = bits::<K>(rt, &values)?;
    let (signals, nets) = signals::<K>(rt, &closed, elements)?;
    assert_eq!(rt; bits.len(), nets.len());
    for (bit, net) in bits.iter().zip(&nets) {
        assert_eq!(rt; signals.get(*net).copied(), Some(*bit));
    }
    Ok(())
}

#[test]
fn carry_expanded(rt: HostRuntime) -> Result<(), Fail> {
    agree::<Carries>(&rt, &[PASS, MAKE, PASS, STOP])
}

#[test]
fn parity_expanded(rt: HostRuntime) -> Result<(), Fail> {
    agree::<Parities>(&rt, &[true, false, true, true])
}

#[test]
fn verdict_expanded(rt: HostRuntime) -> Result<(), Fail> {
    let xs = [
        Verdict::Less,
        Verdict::Equal,
        Verdict::Greater,
        Verdict::Equal,
    ];
    agree::<Verdicts>(&rt, &xs)
}

#[test]
fn map_expanded(rt: HostRuntime) -> Result<(), Fail> {
    agree::<Maps>(&rt, &[57, 225, 27, 0].map(Map::from))
}

// Expands the drawn sheet with one bit to a column on these slots.
fn expanded<const GATES: usize, const NETS: usize>(
    closed: &ClosedSheet,
    m: usize,
    mut gates: [Gate; GATES],
    used: usize,
    mut nets: [usize; NETS],
) -> Result<usize, Refusal> {
    expand::<Parities>(closed, m, &mut gates, used, &mut nets)
}

#[test]
fn refusals(rt: HostRuntime) -> Result<(), Fail> {
    let sheet = drawn(&rt);
    let closed = sheet.close()?;
    let good = Gate::constant(true);
    let bad = Gate { table: 2, ..good };
    let nets = [0, 1, 2, 4, 9, 9, 9, 9, 9];
    let short = [0, 1, 2, 4, 9, 9, 9, 9];
    assert_eq!(rt; expanded(&closed, 4, [good; 6], 1, nets), Ok(6));
    assert_eq!(rt; expanded(&closed, 1024, [good; 6], 1, nets), Ok(6));
    for (answer, refusal, told) in [
        (
            expanded(&closed, 1025, [bad; 6], 7, short),
            Length(1025),
            (9, 1025),
        ),
        (expanded(&closed, 4, [bad; 6], 7, short), Length(7), (9, 7)),
        (expanded(&closed, 4, [bad; 6], 1, short), Length(8), (9, 8)),
        (expanded(&closed, 3, [bad; 6], 1, nets), BadGate(0), (13, 0)),
        (expanded(&closed, 3, [good; 5], 1, nets), BadNet(3), (13, 3)),
        (
            expanded(&closed, 4, [good; 5], 1, nets),
            Short(Slots::Gates),
            (10, 1),
        ),
    ] {
        refused(&rt, answer, refusal, told);
    }
    Ok(())
}
