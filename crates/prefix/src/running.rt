use crate::call::NoCall;
use crate::no_answer::NoAnswer;
use crate::notation::{Notation, Written};
use crate::refused::Refused;
use crate::spaced::Spaced;
use kinds::carry::Carries;
use kinds::kind::Kind;
use kinds::map::Maps;
use kinds::parity::Parities;
use kinds::verdict::Verdicts;
use scan::run::run;
use script::answer::Answer;
use script::drawing::Drawing;
use sheet::sheet::closed::ClosedSheet;
use std::alloc::{AllocError, Global};

// The elements as written, parted by one space.
fn listed<K: Notation>(heap: Global, elements: &[K::Element]) -> Result<String, AllocError> {
    let written: Vec<Written> = elements
        .iter()
        .map(|element| K::write(*element))
        .collect(heap)?;
    Spaced(written.as_slice()).to_string(heap)
}

// Runs a closed sheet over elements, and answers every slot of the value list.
fn over<'a, K: Notation>(
    heap: Global,
    closed: &ClosedSheet,
    elements: &[K::Element],
) -> Result<String, NoAnswer<'a>> {
    let columns = closed.columns();
    let mut values = vec![in heap; K::unit(); columns + closed.joins()]?;
    run::<K>(closed, elements, values.as_mut_slice()).map_err(|refusal| Refused::Run(
        refusal, columns,
    ))?;
    Ok(listed::<K>(heap, values.as_slice())?)
}

// Reads the elements, and runs the closed sheet over them if one stands.
fn read<'a, K: Notation>(
    heap: Global,
    drawing: &Drawing,
    words: &[&'a str],
) -> Result<String, NoAnswer<'a>> {
    let elements: Vec<K::Element> = words
        .iter()
        .map(|word| -> Result<K::Element, NoAnswer<'_>> {
            Ok(K::read(word).ok_or(NoCall::NoElement(word, K::FORM))?)
        })
        .try_collect(heap)?;
    match drawing.closed() {
        Some(closed) => over::<K>(heap, &closed, elements.as_slice()),
        None => Ok(Answer::Measured(None).to_string(heap)?),
    }
}

// Serves `run KIND ELEMENT...`; the words are those behind `run`. A kind is a type, which its word picks.
pub fn serve<'a>(
    heap: Global,
    drawing: &Drawing,
    words: &[&'a str],
) -> Result<String, NoAnswer<'a>> {
    let (kind, elements) = words
        .split_first()
        .ok_or(NoCall::Form("run KIND ELEMENT..."))?;
    match *kind {
        "carry" => read::<Carries>(heap, drawing, elements),
        "parity" => read::<Parities>(heap, drawing, elements),
        "verdict" => read::<Verdicts>(heap, drawing, elements),
        "map" => read::<Maps>(heap, drawing, elements),
        kind => Err(NoAnswer::NoCall(NoCall::NoKind(kind))),
    }
}
