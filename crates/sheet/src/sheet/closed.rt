ghost use Rattle.account.specs.Account.{Covered};
ghost use Rattle.sheet.specs.View.{account};

use crate::sheet::Sheet;

pub mod closing;
pub mod reading;

// A sheet on which every column has an output. It borrows the open sheet, which does not change
// while this one is in use.
#[derive(Drop)]
pub struct ClosedSheet<'a> {
    sheet: &'a Sheet,
    ghost covered: { Covered (account sheet.now) },
}
