ghost use Rattle.std.specs.Prelude.{◌≡◌, ◌+◌, ◌<◌, ◌≤◌, true, map, length, is_some, EachIndex, MatchOption};
ghost use Rattle.account.specs.Account.{output_of};
ghost use Rattle.account.specs.Words.{pair_at};
ghost use Rattle.sheet.specs.Closing.{account_of};
ghost use Rattle.sheet.specs.Spans.{at, pair_of};
ghost use Rattle.sheet.specs.Measured.{measured, ByFormula};

use crate::node::Node;
use crate::sheet::closed::ClosedSheet;
use answers::measure::Measure;

impl ClosedSheet<'_> {
    // The number of columns.
    pub fn columns(&self) -> usize
        ensures { (result ≡ (account_of self.now).columns) × (1 ≤ result) × (result ≤ 64) }
    {
        self.sheet.columns()
    }

    // The number of joins.
    pub fn joins(&self) -> usize
        ensures { (result ≡ length (account_of self.now).joins) × (result ≤ 1024) }
    {
        self.sheet.joins()
    }

    // The nodes of the joins, in order; the operands of each are nodes before it.
    #[tactic(auto, using(crate::proofs::Standing::count_is), unfolding(crate::specs::Spans::pairs_of))]
    pub fn join_nodes(&self) -> &[Node]
        ensures are { map pair_of result.now ≡ (account_of self.now).joins }
        ensures all { (length result.now ≡ length (account_of self.now).joins) × (length result.now ≤ 1024) }
        ensures earlier { EachIndex result.now (λ r. ((at result.now r).low < (account_of self.now).columns + r) × ((at result.now r).high < (account_of self.now).columns + r)) }
    {
        self.sheet.join_nodes()
    }

    // The operands of a join, low first; they are nodes before it.
    pub fn operands(&self, join: usize) -> Option<(usize, usize)>
        ensures are { result ≡ pair_at (account_of self.now).joins join }
        ensures earlier { MatchOption result (length (account_of self.now).joins ≤ join) (λ p. (p.0 < (account_of self.now).columns + join) × (p.1 < (account_of self.now).columns + join)) }
    {
        let node = self.join_nodes().get(join)?;
        Some((node.low, node.high))
    }

    // The output of a column; each of the sheet's columns has one.
    pub fn output(&self, column: usize) -> Option<usize>
        ensures node { result ≡ output_of (account_of self.now) column }
        ensures covered { column < (account_of self.now).columns → is_some result ≡ true }
    {
        self.sheet.output(column)
    }

    // Joins, depth and fan-out.
    pub fn measure(&self) -> Measure
        ensures counted { result ≡ measured (account_of self.now) }
        ensures formula { ByFormula (account_of self.now) result }
    {
        Measure {
            joins: self.joins(),
            depth: self.sheet.depth(),
            fan_out: self.sheet.fan_out(),
        }
    }
}
