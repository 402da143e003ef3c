ghost use Rattle.std.specs.Prelude.{◌≡◌};
ghost use Rattle.answers.specs.Refusals.{refusal, number_of};

use std::error::Error;
use std::fmt;

// An operand of a join.
#[derive(Clone, Copy, Debug, PartialEq, Eq, Hash)]
pub enum Side {
    Low,
    High,
}

impl fmt::Display for Side {
    fn fmt<W: fmt::Write>(&self, f: &mut fmt::Formatter<W>) -> fmt::Result {
        f.write_str(match self {
            Side::Low => "low",
            Side::High => "high",
        })
    }
}

// Why a call on a sheet was refused.
#[derive(Clone, Copy, Debug, PartialEq, Eq, Hash)]
pub enum Refusal {
    Width(usize),
    NoNode(usize, Side),
    Gap(usize, usize),
    Full,
    Bare,
    NotBare(usize),
    NoFamily(usize),
    Uncovered(usize),
}

impl Refusal {
    // The refusal's number; most cases carry values, so that it is no discriminant.
    pub fn number(&self) -> usize
        ensures { result ≡ number_of (refusal self.now) }
    {
        match self {
            Refusal::Width(_) => 1,
            Refusal::NoNode(_, _) => 2,
            Refusal::Gap(_, _) => 3,
            Refusal::Full => 4,
            Refusal::Bare => 5,
            Refusal::NotBare(_) => 6,
            Refusal::NoFamily(_) => 7,
            Refusal::Uncovered(_) => 8,
        }
    }
}

// The number, the values, what is wrong and what to do.
impl fmt::Display for Refusal {
    fn fmt<W: fmt::Write>(&self, f: &mut fmt::Formatter<W>) -> fmt::Result {
        let number = self.number();
        match self {
            Refusal::Width(n) => write!(
                f,
                "refused {number} ({n}): width: a sheet has 1 to 64 columns, not {n}"
            ),
            Refusal::NoNode(v, side) => write!(
                f,
                "refused {number} ({v}, {side}): no such node: nothing stands yet at {v}, the {side} operand"
            ),
            Refusal::Gap(low, high) => write!(
                f,
                "refused {number} ({low}, {high}): gap: node {high} does not start at the column after node {low}'s last"
            ),
            Refusal::Full => write!(
                f,
                "refused {number}: full: 1024 joins stand already; undo one first"
            ),
            Refusal::Bare => write!(f, "refused {number}: bare: there is no join to undo"),
            Refusal::NotBare(joins) => write!(
                f,
                "refused {number} ({joins}): not bare: a family is laid on columns alone; undo the {joins} joins or open anew"
            ),
            Refusal::NoFamily(family) => write!(
                f,
                "refused {number} ({family}): no such family: 1 is sklansky, 2 kogge-stone, 3 brent-kung, 4 han-carlson"
            ),
            Refusal::Uncovered(column) => write!(
                f,
                "refused {number} ({column}): uncovered: no node spells columns 0 to {column}; join one, then close"
            ),
        }
    }
}

impl Error for Refusal {}
