use kinds::elements::Carry;
use kinds::kind::Kind;
use netlist::refusal::Refusal;
use scan::run::run;
use sheet::sheet::Sheet;
use std::process::Abort;

// Carries: passed on, made here, stopped here.

pub const PASS: Carry = Carry {
    generate: false,
    propagate: true,
};

pub const MAKE: Carry = Carry {
    generate: true,
    propagate: false,
};

pub const STOP: Carry = Carry {
    generate: false,
    propagate: false,
};

// A sheet of four columns that no family draws: nodes 6 and 7 both spell columns 0 to 2.
pub fn drawn(rt: &impl Abort) -> Sheet {
    let mut sheet = Sheet::bare();
    assert_eq!(rt; sheet.open(4), Ok(()));
    for (node, low, high) in [(4, 0, 1), (5, 1, 2), (6, 4, 2), (7, 0, 5), (8, 6, 3)] {
        assert_eq!(rt; sheet.join(low, high), Ok(node));
    }
    sheet
}

// Runs the drawn sheet over elements.
pub fn run_drawn<K: Kind>(
    rt: &impl Abort,
    elements: &[K::Element],
    values: &mut [K::Element],
) -> Result<(), Refusal> {
    let sheet = drawn(rt);
    let closed = sheet.close().expect(rt, "close");
    run::<K>(&closed, elements, values)
}

// Checks that a call is refused so, with this number and value.
pub fn refused<T: Drop>(
    rt: &impl Abort,
    answer: Result<T, Refusal>,
    refusal: Refusal,
    told: (u8, usize),
) {
    assert_eq!(rt; answer.err(), Some(refusal));
    assert_eq!(rt; (refusal.number(), refusal.value()), told);
}
