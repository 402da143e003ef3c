ghost use Rattle.std.specs.Prelude.{◌≡◌, true};
ghost use Rattle.script.specs.Serving.{standing};
ghost use Rattle.sheet.specs.Closing.{account_of};

use crate::failure::Failure;
use crate::no_answer::NoAnswer;
use crate::refused::Refused;
use crate::{call, scripting, serving, words};
use script::call::Call;
use script::drawing::Drawing;
use sheet::sheet::closed::ClosedSheet;
use std::alloc::Global;

// A drawing on which a closed sheet stands.
#[derive(Drop)]
pub struct Network {
    drawing: Drawing,
    ghost stands: { (standing drawing).1 ≡ true },
}

impl Network {
    // Closes a drawing.
    fn closing(mut drawing: Drawing) -> Result<Network, Refused> {
        serving::accepted(&mut drawing, Call::Close)?;
        Ok(Network { drawing })
    }

    pub fn closed(&self) -> ClosedSheet<'_>
        ensures { account_of result ≡ (standing self.now.drawing).0 }
    {
        self.drawing.closed().unwrap()
    }
}

// Serves a line of a drawing. Not `scripting::line`: here no answer is printed, and none may be missing.
fn line<'a>(heap: Global, drawing: &mut Drawing, text: &'a str) -> Result<(), NoAnswer<'a>> {
    let words = words::split(heap, text)?;
    serving::serve(heap, drawing, words.as_slice())?;
    Ok(())
}

// The sheet of a script, every call of which is accepted, closed at its end.
fn from_file(rt: &HostRuntime, file: &str) -> Result<Network, Failure> {
    let heap = rt.alloc();
    let drawing = scripting::drawn(rt, file, |drawing, number, text| {
        let place = format!(in heap; "{file}: line {number}: ")?;
        line(heap, drawing, text).map_err(|no| Failure::unanswered(heap, place.as_str(), no))
    })?;
    Network::closing(drawing).map_err(|refused| Failure::stopped(
        heap,
        format_args!("{file}: {refused}"),
    ))
}

// A family on a new sheet, closed.
fn from_family(family: usize, width: usize) -> Result<Network, Refused> {
    let mut drawing = Drawing::new();
    serving::accepted(&mut drawing, Call::Open(width))?;
    serving::accepted(&mut drawing, Call::Lay(family))?;
    Network::closing(drawing)
}

// A family and its width, by their words.
fn from_words(heap: Global, family: &str, width: &str) -> Result<Network, Failure> {
    match call::family_and_width(family, width) {
        Ok((family, width)) => {
            from_family(family, width).map_err(|refused| Failure::stopped(heap, refused))
        }
        Err(no) => Err(Failure::usage(heap, no)),
    }
}

// The network that the words name: FAMILY WIDTH, or @FILE.
pub fn draw(rt: &HostRuntime, words: &[&str]) -> Result<Network, Failure> {
    let heap = rt.alloc();
    let file = match words {
        [family, width] => return from_words(heap, family, width),
        [word] => word.strip_prefix('@'),
        _ => None,
    };
    match file {
        Some(file) => from_file(rt, file),
        None => Err(Failure::usage(heap, "a network is FAMILY WIDTH or @FILE")),
    }
}
