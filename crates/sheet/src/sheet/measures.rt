ghost use Rattle.std.specs.Prelude.{◌≡◌, ℕ, ◌<◌, slice_index};
ghost use Rattle.account.specs.Measure.{depths, depth_of, takers, fan_out};
ghost use Rattle.sheet.specs.View.{account};

use crate::sheet::{MOST_NODES, Sheet};

impl Sheet {
    // The depth of each node that stands, in a slot for each that may: the library takes no heap.
    fn depths(&self) -> [usize; MOST_NODES]
        ensures { (v : ℕ) → v < self.now.table.count → slice_index result v ≡ slice_index (depths self.now.columns (account self.now).joins) v }
    {
        let mut depths = [0usize; MOST_NODES];
        for (r, join) in self.join_nodes().iter().enumerate() {
            depths[self.columns + r] = 1 + depths[join.low].max(depths[join.high]);
        }
        depths
    }

    // The greatest depth of an output.
    pub(crate) fn depth(&self) -> usize
        ensures { result ≡ depth_of (account self.now) }
    {
        let depths = self.depths();
        // A loop and no chain: in a closure it is not proved that an output has a place in the list.
        let mut deepest = 0usize;
        for c in 0..self.columns {
            if let Some(v) = self.output(c) {
                deepest = deepest.max(depths[v]);
            }
        }
        deepest
    }

    // How many joins take a node. A loop, since a chain of filter and count takes nearly twice as long.
    fn takers_of(&self, node: usize) -> usize
        ensures { result ≡ takers node (account self.now).joins }
    {
        let mut takers = 0;
        for join in self.join_nodes() {
            if join.takes(node) {
                takers += 1;
            }
        }
        takers
    }

    // The most joins that take one node.
    pub(crate) fn fan_out(&self) -> usize
        ensures { result ≡ fan_out (account self.now) }
    {
        (0..self.table.count)
            .map(|v| self.takers_of(v))
            .max()
            .unwrap_or(0)
    }
}
