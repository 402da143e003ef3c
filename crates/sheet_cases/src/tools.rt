use sheet::sheet::Sheet;
use std::process::Abort;

// A sheet of so many columns without joins.
pub fn opened(rt: &impl Abort, columns: usize) -> Sheet {
    let mut sheet = Sheet::bare();
    assert_eq!(rt; sheet.open(columns), Ok(()));
    sheet
}
