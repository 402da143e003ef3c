ghost use Rattle.std.specs.Prelude.{◌≡◌, ◌<◌, ◌≤◌, MatchOption, MatchResult};
ghost use Rattle.account.specs.Account.{nodes, word_of, AllRuns};
ghost use Rattle.sheet.specs.Spans.{at, columns_of, joins_of};
ghost use Rattle.sheet.specs.View.{account};
ghost use Rattle.answers.specs.declared.refusal.Refusal.TheVariants.{NoNode};

use crate::node::{Node, Span};
use crate::sheet::Sheet;
use answers::refusal::{Refusal, Side};

impl Sheet {
    // The number of columns.
    pub fn columns(&self) -> usize
        ensures { (result ≡ (account self.now).columns) × (1 ≤ result) × (result ≤ 64) }
    {
        self.columns
    }

    // The nodes of the joins.
    pub(crate) fn join_nodes(&self) -> &[Node]
        ensures { result.now ≡ joins_of self.now.columns self.now.table.nodes self.now.table.count }
    {
        &self.table.standing()[self.columns..]
    }

    // The record of an operand, if that node stands.
    pub(crate) fn operand(&self, node: usize, side: Side) -> Result<Node, Refusal>
        ensures { MatchResult result (λ d. (node < self.now.table.count) × (d ≡ at self.now.table.nodes node)) (λ e. (self.now.table.count ≤ node) × (e ≡ NoNode node side)) }
    {
        self.table.get(node).ok_or(Refusal::NoNode(node, side))
    }

    // The columns that a node spells, if it stands. Every node of every sheet spells a run.
    #[tactic(auto, using(crate::proofs::Standing::count_is, crate::proofs::Standing::all_runs))]
    pub fn span(&self, node: usize) -> Option<Span>
        ensures spells { MatchOption result (nodes (account self.now) ≤ node) (λ s. (node < nodes (account self.now)) × (s.first ≤ s.last) × (word_of (account self.now) node ≡ columns_of s)) }
        ensures runs { AllRuns (account self.now) }
    {
        let record = self.table.get(node)?;
        Some(record.span())
    }
}
