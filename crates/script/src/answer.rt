use answers::measure::Measure;
use std::fmt;

// What a served call of a sheet script answers.
#[derive(Clone, Copy, Debug, PartialEq, Eq)]
pub enum Answer {
    Done,
    // A number, or none where no node spells columns 0 to a column.
    Number(Option<usize>),
    // A measure, or none where no closed sheet stands.
    Measured(Option<Measure>),
}

impl fmt::Display for Answer {
    fn fmt<W: fmt::Write>(&self, f: &mut fmt::Formatter<W>) -> fmt::Result {
        match self {
            Answer::Done => write!(f, "ok"),
            Answer::Number(Some(value)) => write!(f, "{value}"),
            Answer::Number(None) => write!(f, "none"),
            Answer::Measured(Some(measure)) => write!(f, "{measure}"),
            Answer::Measured(None) => write!(f, "no closed sheet"),
        }
    }
}
