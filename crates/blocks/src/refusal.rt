ghost use Rattle.std.specs.Prelude.{◌≡◌, [], ◌∷◌};
ghost use Rattle.blocks.specs.Refusals.{number_of, values_of};

use netlist::refusal::Slots;
use std::error::Error;
use std::fmt;

// Why a block was not built.
#[derive(Clone, Copy, Debug, PartialEq, Eq, Hash)]
pub enum Refusal {
    // A machine's start that is none of its states.
    Start(usize),
    // Too few slots.
    Short(Slots),
}

impl Refusal {
    // The number under which the refusal is known; each case carries a value, so that it is no discriminant.
    pub fn number(&self) -> u8
        ensures { result ≡ number_of self.now }
    {
        match self {
            Refusal::Start(_) => 11,
            Refusal::Short(_) => 10,
        }
    }

    // The one value that the refusal gives.
    pub fn value(&self) -> usize
        ensures { result ∷ [] ≡ values_of self.now }
    {
        match self {
            Refusal::Start(start) => *start,
            Refusal::Short(slots) => slots.number(),
        }
    }
}

impl fmt::Display for Refusal {
    fn fmt<W: fmt::Write>(&self, f: &mut fmt::Formatter<W>) -> fmt::Result {
        let number = self.number();
        match self {
            Refusal::Start(start) => write!(
                f,
                "refused {number} ({start}): start: a machine has the states 0 to 3; start in one of these"
            ),
            Refusal::Short(slots) => write!(
                f,
                "refused {number} ({slots}): too few slots; lend a longer table"
            ),
        }
    }
}

impl Error for Refusal {}
