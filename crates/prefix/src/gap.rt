use sheet::node::Span;
use sheet::sheet::Sheet;
use std::fmt;

// What is wrong with joining two nodes that do not meet, by the columns that they spell.
#[derive(Clone, Copy, Debug, PartialEq, Eq)]
pub struct Gap {
    low: Span,
    high: Span,
}

impl Gap {
    // The gap between two nodes of a sheet, if both stand.
    pub fn between(sheet: &Sheet, low: usize, high: usize) -> Option<Gap> {
        let low = sheet.span(low)?;
        let high = sheet.span(high)?;
        Some(Gap { low, high })
    }
}

impl fmt::Display for Gap {
    fn fmt<W: fmt::Write>(&self, f: &mut fmt::Formatter<W>) -> fmt::Result {
        let (a, b) = (self.low.first, self.low.last);
        let (c, d) = (self.high.first, self.high.last);
        write!(f, "low spells columns {a} to {b} and high {c} to {d}, ")?;
        if d < a {
            write!(f, "so high comes before low")
        } else if c <= b {
            let twice = a.max(c);
            write!(f, "so column {twice} would be taken twice")
        } else {
            let left = b.saturating_add(1);
            write!(f, "so column {left} would be left out")
        }
    }
}
