ghost use Rattle.std.specs.Prelude.{◌≡◌, true, IfOk, OnOk};
ghost use Rattle.script.specs.Serving.{told, standing, served};

use crate::no_answer::NoAnswer;
use crate::refused::Refused;
use crate::{call, running};
use script::answer::Answer;
use script::call::Call;
use script::drawing::Drawing;
use std::alloc::Global;

// Serves a call; what is refused comes with what the sheet says of it.
pub fn accepted(drawing: &mut Drawing, call: Call) -> Result<Answer, Refused>
    ensures stands { standing drawing.new ≡ (served (standing drawing.old) call).1 }
    ensures answers { IfOk result (λ a. told (Ok a) ≡ (served (standing drawing.old) call).0) }
    ensures closes { call ≡ Call.Close → OnOk result ((standing drawing.new).1 ≡ true) }
{
    drawing
        .serve(call)
        .map_err(|refusal| Refused::by(drawing.sheet(), refusal))
}

// Serves the call that the words of a line write; no words have no answer.
pub fn serve<'a>(
    heap: Global,
    drawing: &mut Drawing,
    words: &[&'a str],
) -> Result<Option<String>, NoAnswer<'a>> {
    let told = match words {
        [] => return Ok(None),
        ["run", rest @ ..] => running::serve(heap, drawing, rest)?,
        [name, rest @ ..] => accepted(drawing, call::parse(name, rest)?)?.to_string(heap)?,
    };
    Ok(Some(told))
}
