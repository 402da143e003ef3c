use crate::failure::Failure;
use crate::no_answer::NoAnswer;
use crate::spaced::Spaced;
use crate::{serving, words};
use script::drawing::Drawing;
use std::fs;
use std::io::{BufRead, BufReader};

// Draws the script of a file: each line, behind its number, goes to `line`.
pub(crate) fn drawn<F>(rt: &HostRuntime, file: &str, mut line: F) -> Result<Drawing, Failure>
where
    F: FnMut(&mut Drawing, usize, &str) -> Result<(), Failure> + Drop,
    requires { F.IsAlwaysCallable line }
{
    let script = fs::read_to_string(rt, file).map_err(|error| Failure::stopped(
        rt.alloc(),
        format_args!("{file}: {error}"),
    ))?;
    let mut drawing = Drawing::new();
    for (number, text) in (1usize..).zip(script.as_str().lines()) {
        line(&mut drawing, number, text)?;
    }
    Ok(drawing)
}

// Answers a line of a script; blank lines and comments have no answer.
fn line(rt: &HostRuntime, drawing: &mut Drawing, number: usize, text: &str) -> Result<(), Failure> {
    let heap = rt.alloc();
    let words = words::split(heap, text)?;
    let told = match serving::serve(heap, drawing, words.as_slice()) {
        Ok(None) => return Ok(()),
        Ok(Some(told)) => told,
        Err(NoAnswer::Refused(refused)) => format!(in heap; "{refused}")?,
        Err(no) => {
            let place = format!(in heap; "line {number}: ")?;
            return Err(Failure::unanswered(heap, place.as_str(), no));
        }
    };
    // Word by word: a line joined first would take its length in memory once more.
    println!(rt; "{} -> {told}", Spaced(words.as_slice()))?;
    Ok(())
}

// A script from standard input, each line answered as it comes.
fn from_input(rt: &HostRuntime) -> Result<(), Failure> {
    let mut drawing = Drawing::new();
    // Only want of memory keeps a reader from being made.
    let Ok(reader) = BufReader::new(rt.alloc(), rt.stdin()) else {
        return Err(Failure::Memory);
    };
    for (number, next) in (1usize..).zip(reader.lines(rt.alloc())) {
        let text = next.map_err(|error| Failure::stopped(
            rt.alloc(),
            format_args!("line {number}: {error}"),
        ))?;
        line(rt, &mut drawing, number, text.as_str())?;
    }
    Ok(())
}

#[inline(never)]
pub fn command(rt: &HostRuntime, rest: &[&str]) -> Result<(), Failure> {
    match rest {
        [] => from_input(rt),
        [file] => {
            drawn(rt, file, |drawing, number, text| {
                line(rt, drawing, number, text)
            })?;
            Ok(())
        }
        _ => Err(Failure::usage(rt.alloc(), "sheet takes one file at most")),
    }
}
