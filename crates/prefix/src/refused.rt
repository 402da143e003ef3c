use crate::gap::Gap;
use answers::refusal::Refusal;
use netlist::refusal::Refusal as RunRefusal;
use sheet::sheet::Sheet;
use std::fmt;

// A refusal, with what the words for it add.
#[derive(Clone, Copy, Debug, PartialEq, Eq)]
pub enum Refused {
    // A call on the sheet; a gap is told with the columns that the two nodes spell.
    Call(Refusal, Option<Gap>),
    // A run of a closed sheet of so many columns.
    Run(RunRefusal, usize),
}

impl Refused {
    // What a sheet refused.
    pub(crate) fn by(sheet: &Sheet, refusal: Refusal) -> Refused {
        let gap = match refusal {
            Refusal::Gap(low, high) => Gap::between(sheet, low, high),
            _ => None,
        };
        Refused::Call(refusal, gap)
    }
}

impl fmt::Display for Refused {
    fn fmt<W: fmt::Write>(&self, f: &mut fmt::Formatter<W>) -> fmt::Result {
        match self {
            Refused::Call(refusal, None) => write!(f, "{refusal}"),
            Refused::Call(refusal, Some(gap)) => write!(f, "{refusal}: {gap}"),
            Refused::Run(refusal, columns) => write!(
                f,
                "{refusal}: write one element for each column, {columns} in all"
            ),
        }
    }
}
