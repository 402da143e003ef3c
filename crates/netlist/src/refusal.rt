ghost use Rattle.std.specs.Prelude.{◌≡◌, [], ◌∷◌};
ghost use Rattle.netlist.specs.Refusals.{number_of, values_of, slots_number};

use std::error::Error;
use std::fmt;

// A table that has too few slots, with its number.
#[derive(Clone, Copy, Debug, PartialEq, Eq, Hash)]
pub enum Slots {
    Inputs = 0,
    Gates = 1,
    Names = 2,
    Outputs = 3,
    Text = 4,
}

impl Slots {
    pub fn number(self) -> usize
        ensures { result ≡ slots_number self }
    {
        self as usize
    }
}

impl fmt::Display for Slots {
    fn fmt<W: fmt::Write>(&self, f: &mut fmt::Formatter<W>) -> fmt::Result {
        f.write_str(match self {
            Slots::Inputs => "inputs",
            Slots::Gates => "gates",
            Slots::Names => "names",
            Slots::Outputs => "outputs",
            Slots::Text => "text",
        })
    }
}

// Why a call on a netlist did nothing.
#[derive(Clone, Copy, Debug, PartialEq, Eq, Hash)]
pub enum Refusal {
    // A list, a number of inputs or a used count that is not as the call wants it.
    Length(usize),
    // Too few slots, or more than a netlist may have.
    Short(Slots),
    // The index of an input byte that is neither 0 nor 1.
    InputByte(usize),
    // The index of a gate that is not good.
    BadGate(usize),
    // The index of a column net that is no signal.
    BadNet(usize),
}

impl Refusal {
    // The number under which the refusal is known; each case carries a value, so that it is no discriminant.
    pub fn number(&self) -> u8
        ensures { result ≡ number_of self.now }
    {
        match self {
            Refusal::Length(_) => 9,
            Refusal::Short(_) => 10,
            Refusal::InputByte(_) => 12,
            Refusal::BadGate(_) | Refusal::BadNet(_) => 13,
        }
    }

    // The one value that the refusal gives.
    pub fn value(&self) -> usize
        ensures { result ∷ [] ≡ values_of self.now }
    {
        match self {
            Refusal::Short(slots) => slots.number(),
            Refusal::Length(n) | Refusal::InputByte(n) | Refusal::BadGate(n) | Refusal::BadNet(n) =>
                *n,
        }
    }
}

impl fmt::Display for Refusal {
    fn fmt<W: fmt::Write>(&self, f: &mut fmt::Formatter<W>) -> fmt::Result {
        let number = self.number();
        match self {
            Refusal::Length(n) => write!(
                f,
                "refused {number} ({n}): a length does not fit; give lists of the lengths that the call names"
            ),
            Refusal::Short(slots) => write!(
                f,
                "refused {number} ({slots}): too few slots, or more than a netlist may have; lend a longer table or build less"
            ),
            Refusal::InputByte(i) => write!(
                f,
                "refused {number} ({i}): this input byte is neither 0 nor 1; give one of these"
            ),
            Refusal::BadGate(k) => write!(
                f,
                "refused {number} ({k}): this gate breaks the rule of gates; have it read earlier signals, with a table for its arity"
            ),
            Refusal::BadNet(i) => write!(
                f,
                "refused {number} ({i}): this column net is no signal; name an input or a used gate"
            ),
        }
    }
}

impl Error for Refusal {}
