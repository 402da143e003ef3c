use std::fmt;

// What is measured of a closed sheet.
#[derive(Clone, Copy, Debug, PartialEq, Eq, Hash)]
pub struct Measure {
    pub joins: usize,
    pub depth: usize,
    pub fan_out: usize,
}

impl fmt::Display for Measure {
    fn fmt<W: fmt::Write>(&self, f: &mut fmt::Formatter<W>) -> fmt::Result {
        write!(
            f,
            "joins {}, depth {}, fan-out {}",
            self.joins, self.depth, self.fan_out
        )
    }
}
