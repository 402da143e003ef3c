use kinds::elements::Map;

// A machine of four states: the maps of symbols 0 and 1, and the number of the state in which it
// starts, 0 to 3.
#[derive(Clone, Copy, Debug, PartialEq, Eq, Hash)]
pub struct Machine {
    pub zero: Map,
    pub one: Map,
    // A number, and no State: any may be asked for, and building is to refuse one above 3.
    pub start: usize,
}

// What is built over a closed sheet.
#[derive(Clone, Copy, Debug, PartialEq, Eq, Hash)]
pub enum Block {
    Adder,
    Comparator,
    GrayDecoder,
    Machine(Machine),
}
