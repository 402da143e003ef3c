ghost use Rattle.std.specs.Prelude.{◌≡◌, ◌≤◌, [], length};
ghost use Rattle.account.specs.Account.{GapIsNoRun, joined, undone, output_of, found, opened};
ghost use Rattle.answers.specs.Refusals.{answer, outcome};
ghost use Rattle.sheet.specs.View.{account};

use crate::node::Node;
use crate::sheet::{MOST_COLUMNS, MOST_JOINS, Sheet, Table};
use answers::refusal::{Refusal, Side};

impl Sheet {
    // One column and no join: what a place for a sheet holds at first.
    pub fn bare() -> Sheet
        ensures { account result ≡ record { columns = 1; joins = [] } }
    {
        Sheet::of_columns(1)
    }

    // n columns and no join.
    fn of_columns(n: usize) -> Sheet
        requires { (1 ≤ n) × (n ≤ 64) }
        ensures { account result ≡ record { columns = n; joins = [] } }
    {
        Sheet {
            columns: n,
            table: Table::columns(n),
        }
    }

    // A sheet of n columns without joins, in the place of this one.
    pub fn open(&mut self, n: usize) -> Result<(), Refusal>
        ensures { (outcome result, account self.new) ≡ opened (account self.old) n }
    {
        if !(1..=MOST_COLUMNS).contains(&n) {
            return Err(Refusal::Width(n));
        }
        *self = Sheet::of_columns(n);
        Ok(())
    }

    // The number of joins.
    #[tactic(auto, using(crate::proofs::Standing::count_is))]
    pub fn joins(&self) -> usize
        ensures { (result ≡ length (account self.now).joins) × (result ≤ 1024) }
    {
        self.table.count - self.columns
    }

    // A node that spells low's columns and then high's, if these make a run.
    pub fn join(&mut self, low: usize, high: usize) -> Result<usize, Refusal>
        ensures joins { (answer result, account self.new) ≡ joined (account self.old) low high }
        ensures gaps { GapIsNoRun (account self.old) low high (answer result) }
    {
        let (a, b) = (
            self.operand(low, Side::Low)?,
            self.operand(high, Side::High)?,
        );
        let gap = a.last + 1 != b.first;
        if gap {
            return Err(Refusal::Gap(low, high));
        }
        let node = self.table.count;
        let full = node >= self.columns + MOST_JOINS;
        if full {
            return Err(Refusal::Full);
        }
        self.table.add(Node::joining(low, high, a, b));
        Ok(node)
    }

    // Takes the last join back, and answers how many remain.
    pub fn undo(&mut self) -> Result<usize, Refusal>
        ensures { (answer result, account self.new) ≡ undone (account self.old) }
    {
        if self.table.count == self.columns {
            return Err(Refusal::Bare);
        }
        self.table.remove();
        Ok(self.joins())
    }

    // The lowest node that spells columns 0 to the given one, if there is one yet.
    pub fn output(&self, column: usize) -> Option<usize>
        ensures node { result ≡ output_of (account self.now) column }
        ensures answers { found result ≡ found (output_of (account self.now) column) }
    {
        self.table
            .standing()
            .iter()
            .position(|node| node.spells_to(column))
    }
}
