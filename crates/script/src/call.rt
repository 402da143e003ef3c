// A call of a sheet script, with the numbers that it takes.
#[derive(Clone, Copy, Debug, PartialEq, Eq)]
pub enum Call {
    Open(usize),
    Join(usize, usize),
    Undo,
    Lay(usize),
    Output(usize),
    Close,
    Reopen,
    Measure,
}
