ghost use Rattle.std.specs.Prelude.{◌≡◌, ◌<◌, ◌^◌, length, All, IfOk, OkIff};
ghost use Rattle.std.specs.Char.{is_ascii_digit};
ghost use Rattle.std.specs.List.{list_all};
ghost use Rattle.std.specs.Str.Parse.{IsNumeral, digits_value};

use std::alloc::{AllocError, Global};
use std::fmt;

// The words of a line: what stands before a `#`, parted by spaces, tabs and carriage returns.
pub fn split(heap: Global, line: &str) -> Result<Vec<&str>, AllocError>
    ensures { IfOk result (λ words. All (λ w. 0 < length w.now) words.items) }
{
    let text = line.split_once('#').map_or(line, |(before, _)| before);
    text.split([' ', '\t', '\r'])
        .filter(|word| !word.is_empty())
        .collect(heap)
}

// Why a word is no number.
#[derive(Clone, Copy, Debug, PartialEq, Eq)]
pub enum NoNumber<'a> {
    NotDigits(&'a str),
    TooLarge(&'a str),
}

impl fmt::Display for NoNumber<'_> {
    fn fmt<W: fmt::Write>(&self, f: &mut fmt::Formatter<W>) -> fmt::Result {
        match self {
            NoNumber::NotDigits(word) => write!(f, "{word:?} is no number: write decimal digits"),
            NoNumber::TooLarge(word) => write!(
                f,
                "{word} is too large: write a number below 18446744073709551616"
            ),
        }
    }
}

fn all_digits(word: &str) -> bool
    ensures { result ≡ list_all is_ascii_digit word.now }
{
    word.bytes().all(|byte| byte.is_ascii_digit())
}

// A number is written in decimal digits alone, and is below 2^64.
pub fn number(word: &str) -> Result<usize, NoNumber<'_>>
    ensures { OkIff result (IsNumeral 10 word.now × (digits_value 10 word.now < 2 ^ 64)) (digits_value 10 word.now) }
{
    if word.is_empty() || !all_digits(word) {
        return Err(NoNumber::NotDigits(word));
    }
    word.parse().map_err(|_| NoNumber::TooLarge(word))
}
