ghost use Rattle.std.specs.Prelude.{◌≡◌, true, false, [], MatchOption, OnOk};
ghost use Rattle.sheet.specs.Closing.{account_of};
ghost use Rattle.sheet.specs.View.{account};
ghost use Rattle.script.specs.Serving.{told, standing, served};

use crate::answer::Answer;
use crate::call::Call;
use crate::drawing::Drawing;
use answers::refusal::Refusal;
use sheet::sheet::Sheet;
use sheet::sheet::closed::ClosedSheet;

impl Drawing {
    // One bare column, and no closed sheet.
    pub fn new() -> Drawing
        ensures { standing result ≡ (record { columns = 1; joins = [] }, false) }
    {
        Drawing {
            sheet: Sheet::bare(),
            closed: false,
        }
    }

    // The sheet as it stands.
    pub fn sheet(&self) -> &Sheet
        ensures { account result.now ≡ (standing self.now).0 }
    {
        &self.sheet
    }

    // The closed sheet, if one stands; it is the one that closing gives again.
    pub fn closed(&self) -> Option<ClosedSheet<'_>>
        ensures { MatchOption result ((standing self.now).1 ≡ false) (λ k. ((standing self.now).1 ≡ true) × (account_of k ≡ (standing self.now).0)) }
    {
        if self.closed {
            self.sheet.close().ok()
        } else {
            None
        }
    }

    // Serves a call: open, join, undo and lay end a closed sheet, refused or not.
    pub fn serve(&mut self, call: Call) -> Result<Answer, Refusal>
        ensures answers { (told result, standing self.new) ≡ served (standing self.old) call }
        ensures closes { call ≡ Call.Close → OnOk result ((standing self.new).1 ≡ true) }
    {
        // Only output and measure leave a closed sheet standing; close makes one stand anew.
        self.closed &= matches!(call, Call::Output(_) | Call::Measure);
        let answer = match call {
            Call::Open(n) => {
                self.sheet.open(n)?;
                Answer::Done
            }
            Call::Join(low, high) => Answer::Number(Some(self.sheet.join(low, high)?)),
            Call::Undo => Answer::Number(Some(self.sheet.undo()?)),
            Call::Lay(family) => Answer::Number(Some(self.sheet.lay(family)?)),
            Call::Output(column) => Answer::Number(self.sheet.output(column)),
            Call::Close => {
                self.sheet.close()?.reopen();
                self.closed = true;
                Answer::Done
            }
            Call::Reopen => Answer::Done,
            Call::Measure => Answer::Measured(self.closed().map(|closed| closed.measure())),
        };
        Ok(answer)
    }
}
