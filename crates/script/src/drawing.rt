ghost use Rattle.std.specs.Prelude.{◌≡◌, true};
ghost use Rattle.account.specs.Account.{Covered};
ghost use Rattle.sheet.specs.View.{account};

use sheet::sheet::Sheet;

// A sheet, and whether a closed sheet stands on it.
// The state is a flag: a closed sheet borrows the sheet, and an enum of two sheets would move all its
// nodes at each call.
#[derive(Drop)]
pub struct Drawing {
    pub(crate) sheet: Sheet,
    pub(crate) closed: bool,
    ghost covered: { closed ≡ true → Covered (account sheet) },
}
