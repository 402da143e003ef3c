ghost use Rattle.std.specs.Prelude.{◌≡◌, find, is_none};
ghost use Rattle.std.specs.List.{range_with_len};
ghost use Rattle.account.specs.Account.{closed, done, output_of, reopened};
ghost use Rattle.sheet.specs.View.{account};
ghost use Rattle.sheet.specs.Closing.{close_answer};

use crate::sheet::Sheet;
use crate::sheet::closed::ClosedSheet;
use answers::refusal::Refusal;

impl Sheet {
    // The lowest column that has no output, if there is one.
    fn uncovered(&self) -> Option<usize>
        ensures { result ≡ find (λ c. is_none (output_of (account self.now) c)) (range_with_len 0 self.now.columns) }
    {
        (0..self.columns).find(|c| self.output(*c).is_none())
    }

    // A closed sheet on this one, if every column has an output.
    pub fn close(&self) -> Result<ClosedSheet<'_>, Refusal>
        ensures { close_answer result ≡ closed (account self.now) }
    {
        match self.uncovered() {
            Some(c) => Err(Refusal::Uncovered(c)),
            None => Ok(ClosedSheet { sheet: self }),
        }
    }
}

impl ClosedSheet<'_> {
    // Ends the closed sheet; the open one is as it was.
    pub fn reopen(self)
        ensures { (done, account self.exit.sheet.now) ≡ reopened (account self.entry.sheet.now) }
    {}
}
