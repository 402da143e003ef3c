use crate::words;
use crate::words::NoNumber;
use answers::family::Family;
use script::call::Call;
use std::fmt;

// Why a line is no call.
#[derive(Clone, Copy, Debug, PartialEq, Eq)]
pub enum NoCall<'a> {
    Unknown(&'a str),
    Form(&'static str),
    NoNumber(NoNumber<'a>),
    NoFamily(&'a str),
    NoKind(&'a str),
    // A word that is no element, and how an element is written.
    NoElement(&'a str, &'static str),
}

impl<'a> From<NoNumber<'a>> for NoCall<'a> {
    fn from(no: NoNumber<'a>) -> NoCall<'a> {
        NoCall::NoNumber(no)
    }
}

impl fmt::Display for NoCall<'_> {
    fn fmt<W: fmt::Write>(&self, f: &mut fmt::Formatter<W>) -> fmt::Result {
        match self {
            NoCall::Unknown(word) => write!(
                f,
                "{word:?} is no call: write open, join, undo, lay, output, close, reopen, measure or run"
            ),
            NoCall::Form(form) => write!(f, "this is no call: write {form}"),
            NoCall::NoNumber(no) => write!(f, "{no}"),
            NoCall::NoFamily(word) => write!(
                f,
                "{word:?} is no family: write sklansky, kogge-stone, brent-kung, han-carlson or a number"
            ),
            NoCall::NoKind(word) => write!(
                f,
                "{word:?} is no kind: write carry, parity, verdict or map"
            ),
            NoCall::NoElement(word, form) => write!(f, "{word:?} is no element: {form}"),
        }
    }
}

// The family of a name; no FromStr of Family, since the names are the program's.
fn named(word: &str) -> Option<Family> {
    match word {
        "sklansky" => Some(Family::Sklansky),
        "kogge-stone" => Some(Family::KoggeStone),
        "brent-kung" => Some(Family::BrentKung),
        "han-carlson" => Some(Family::HanCarlson),
        _ => None,
    }
}

// The number of a family, by its name or as a number.
fn family(word: &str) -> Result<usize, NoCall<'_>> {
    if let Some(family) = named(word) {
        return Ok(family.number());
    }
    match words::number(word) {
        Err(NoNumber::NotDigits(word)) => Err(NoCall::NoFamily(word)),
        number => Ok(number?),
    }
}

// A family and a width.
pub fn family_and_width<'a>(first: &'a str, second: &'a str) -> Result<(usize, usize), NoCall<'a>> {
    Ok((family(first)?, words::number(second)?))
}

// The call that the words write: its name, and then what it takes.
pub fn parse<'a>(name: &'a str, rest: &[&'a str]) -> Result<Call, NoCall<'a>> {
    match (name, rest) {
        ("open", [width]) => Ok(Call::Open(words::number(width)?)),
        ("open", _) => Err(NoCall::Form("open WIDTH, one number")),
        ("join", [low, high]) => Ok(Call::Join(words::number(low)?, words::number(high)?)),
        ("join", _) => Err(NoCall::Form("join LOW HIGH, two node numbers")),
        ("undo", []) => Ok(Call::Undo),
        ("undo", _) => Err(NoCall::Form("undo, and no word after it")),
        ("lay", [name]) => Ok(Call::Lay(family(name)?)),
        ("lay", _) => Err(NoCall::Form("lay FAMILY, a name or a number")),
        ("output", [column]) => Ok(Call::Output(words::number(column)?)),
        ("output", _) => Err(NoCall::Form("output COLUMN, one number")),
        ("close", []) => Ok(Call::Close),
        ("close", _) => Err(NoCall::Form("close, and no word after it")),
        ("reopen", []) => Ok(Call::Reopen),
        ("reopen", _) => Err(NoCall::Form("reopen, and no word after it")),
        ("measure", []) => Ok(Call::Measure),
        ("measure", _) => Err(NoCall::Form("measure, and no word after it")),
        _ => Err(NoCall::Unknown(name)),
    }
}
