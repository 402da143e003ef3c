use crate::words;
use kinds::carry::Carries;
use kinds::elements::{Carry, Map, Verdict};
use kinds::kind::Kind;
use kinds::map::Maps;
use kinds::parity::Parities;
use kinds::verdict::Verdicts;
use std::fmt;

// An element as it is written. The elements are types of other crates, which cannot be given a
// Display here.
#[derive(Clone, Copy, Debug)]
pub enum Written {
    Carry(Carry),
    Parity(bool),
    Verdict(Verdict),
    Map(u8),
}

impl fmt::Display for Written {
    fn fmt<W: fmt::Write>(&self, f: &mut fmt::Formatter<W>) -> fmt::Result {
        match self {
            Written::Carry(carry) => write!(
                f,
                "{}{}",
                u8::from(carry.generate),
                u8::from(carry.propagate)
            ),
            Written::Parity(bit) => write!(f, "{}", u8::from(*bit)),
            Written::Verdict(Verdict::Equal) => write!(f, "="),
            Written::Verdict(Verdict::Less) => write!(f, "<"),
            Written::Verdict(Verdict::Greater) => write!(f, ">"),
            Written::Map(byte) => write!(f, "{byte}"),
        }
    }
}

// A kind whose elements can be written. No FromStr or Display of the elements: a bool has its own,
// with true and false.
pub trait Notation: Kind {
    // How an element is written, for a message.
    const FORM: &'static str;

    fn read(word: &str) -> Option<Self::Element>;

    fn write(element: Self::Element) -> Written;
}

impl Notation for Carries {
    const FORM: &'static str = "an element of carry is two digits, generate and propagate, as 10";

    fn read(word: &str) -> Option<Carry> {
        let (generate, propagate) = match word {
            "00" => (false, false),
            "01" => (false, true),
            "10" => (true, false),
            "11" => (true, true),
            _ => return None,
        };
        Some(Carry {
            generate,
            propagate,
        })
    }

    fn write(element: Carry) -> Written {
        Written::Carry(element)
    }
}

impl Notation for Parities {
    const FORM: &'static str = "an element of parity is 0 or 1";

    fn read(word: &str) -> Option<bool> {
        match word {
            "0" => Some(false),
            "1" => Some(true),
            _ => None,
        }
    }

    fn write(element: bool) -> Written {
        Written::Parity(element)
    }
}

impl Notation for Verdicts {
    const FORM: &'static str = "an element of verdict is =, < or >";

    fn read(word: &str) -> Option<Verdict> {
        match word {
            "=" => Some(Verdict::Equal),
            "<" => Some(Verdict::Less),
            ">" => Some(Verdict::Greater),
            _ => None,
        }
    }

    fn write(element: Verdict) -> Written {
        Written::Verdict(element)
    }
}

impl Notation for Maps {
    const FORM: &'static str = "an element of map is a number from 0 to 255";

    fn read(word: &str) -> Option<Map> {
        let byte = u8::try_from(words::number(word).ok()?).ok()?;
        Some(Map::from(byte))
    }

    fn write(element: Map) -> Written {
        Written::Map(u8::from(element))
    }
}
