// The program: words in, calls of the library, answers out.
#![tactic(auto)]

mod call;
mod failure;
mod gap;
mod help;
mod measuring;
mod network;
mod no_answer;
mod notation;
mod refused;
mod running;
mod scripting;
mod serving;
mod spaced;
mod words;

use failure::Failure;
use std::env;
use std::process::ExitCode;

// The command that the words name.
fn command(rt: &HostRuntime, words: &[&str]) -> Result<(), Failure> {
    match words {
        [] => Err(Failure::usage(rt.alloc(), "no command")),
        ["sheet", rest @ ..] => scripting::command(rt, rest),
        ["measure", rest @ ..] => measuring::command(rt, rest),
        ["help", rest @ ..] => help::command(rt, rest),
        [name, ..] => Err(Failure::usage(rt.alloc(), format_args!("{name:?} is no command"))),
    }
}

fn run(rt: &HostRuntime) -> Result<(), Failure> {
    let heap = rt.alloc();
    let arguments: Vec<String> = env::args(rt)?.skip(1).collect(heap)?;
    let words: Vec<&str> = arguments
        .iter()
        .map(|argument| argument.as_str())
        .collect(heap)?;
    command(rt, words.as_slice())
}

fn main(rt: HostRuntime) -> ExitCode {
    match run(&rt) {
        Ok(()) => ExitCode::SUCCESS,
        Err(failure) => {
            let _ = eprintln!(rt; "prefix: {failure}");
            ExitCode::FAILURE
        }
    }
}
