ghost use Rattle.std.specs.Prelude.{◌≡◌, ◌<◌, [], length, IfOk, OnOk};
ghost use Rattle.account.specs.Families.{family as joins_of, lay_level, size_of, depth_of_family};
ghost use Rattle.account.specs.Account.{laid, closed, closed_sheet};
ghost use Rattle.account.specs.Measure.{depth_of};
ghost use Rattle.account.specs.Sound.{Sound};
ghost use Rattle.answers.specs.FamilyNumbers.{number_of};
ghost use Rattle.answers.specs.Refusals.{answer};
ghost use Rattle.sheet.specs.Levels.{rule_of};
ghost use Rattle.sheet.specs.View.{account, laying};

use crate::sheet::families::{Level, Levels};
use crate::sheet::{MOST_COLUMNS, Sheet};
use answers::family::Family;
use answers::refusal::Refusal;
use std::array;

impl Sheet {
    // A level, from the first column to the last, where `before` has the nodes that were current before it.
    #[tactic(auto, using(account::proofs::Laying::columns), unfolding(account::specs::Families::lay_level))]
    fn lay_level(&mut self, level: Level, before: &[usize], current: &mut [usize])
        requires current { (before.now ≡ current.old) × (length current.old ≡ self.old.columns) }
        requires sound { Sound self.old.columns (lay_level self.old.columns (laying self.old current.old) (rule_of level)).joins }
        ensures joins { laying self.new current.new ≡ lay_level self.old.columns (laying self.old current.old) (rule_of level) }
        ensures wide { self.new.columns ≡ self.old.columns }
    {
        for (i, node) in current.iter_mut().enumerate() {
            if let Some(j) = level.partner(i) {
                *node = self.join(before[j], before[i]).unwrap();
            }
        }
    }

    // All levels of the family on a bare sheet.
    fn lay_levels(&mut self, family: Family)
        requires { (account self.old).joins ≡ [] }
        ensures { account self.new ≡ record { columns = self.old.columns; joins = joins_of (number_of family) self.old.columns } }
    {
        let n = self.columns;
        // An array with room for every width: the library takes no heap.
        let mut current: [usize; MOST_COLUMNS] = array::from_fn(|i| i);
        for level in Levels::of(family, n - 1) {
            let before = current;
            self.lay_level(level, &before[..n], &mut current[..n]);
        }
    }

    // Adds the joins of the family of that number to a bare sheet, and answers how many. It takes a
    // number and no Family: any number gets an answer, and one that no family has is refused.
    pub fn lay(&mut self, family: usize) -> Result<usize, Refusal>
        ensures lays { (answer result, account self.new) ≡ laid (account self.old) family }
        ensures covers { OnOk result (closed (account self.new) ≡ closed_sheet (account self.new)) }
        ensures sized { IfOk result (λ v. v ≡ size_of family self.old.columns) }
        ensures deep { OnOk result (depth_of (account self.new) ≡ depth_of_family family self.old.columns) }
    {
        let chosen = Family::try_from(family)?;
        let joins = self.joins();
        if joins > 0 {
            return Err(Refusal::NotBare(joins));
        }
        self.lay_levels(chosen);
        Ok(self.joins())
    }
}
