ghost use Rattle.std.specs.Prelude.{◌≡◌, ℕ, ◌+◌, ◌-◌, ◌<◌, ◌≤◌, length, slice_set, MatchOption};
ghost use Rattle.sheet.specs.Spans.{Founded, Spelled, Upward, at, column, joins_of, standing_of};

use crate::node::Node;

pub mod calls;
pub mod closed;
mod families;
mod laying;
mod measures;
pub mod nodes;

// A sheet has at most so many columns, and at most so many joins.
pub const MOST_COLUMNS: usize = 64;

pub const MOST_JOINS: usize = 1024;

const MOST_NODES: usize = MOST_COLUMNS + MOST_JOINS;

// The nodes of a sheet: the first `count` records stand, columns first, then joins in order. The
// table is an array with a count, and no Vec: the library takes no memory from the heap.
#[derive(Drop)]
pub struct Table {
    nodes: [Node; MOST_NODES],
    count: usize,
    ghost sized: { length nodes ≡ 1088 },
    ghost within: { count ≤ 1088 },
}

impl Table {
    // n columns and no join.
    fn columns(n: usize) -> Table
        requires { n ≤ 64 }
        ensures spans { (v : ℕ) → v < n → at result.nodes v ≡ column v }
        ensures counted { result.count ≡ n }
    {
        // Only the columns get their numbers: numbering all 1,088 records, by `array::from_fn`, takes longer.
        let mut nodes = [Node::column(0); MOST_NODES];
        for (v, node) in nodes[..n].iter_mut().enumerate() {
            *node = Node::column(v);
        }
        Table { nodes, count: n }
    }

    // The nodes that stand.
    fn standing(&self) -> &[Node]
        ensures { result.now ≡ standing_of self.now.nodes self.now.count }
    {
        &self.nodes[..self.count]
    }

    // The record of a node, if it stands.
    fn get(&self, node: usize) -> Option<Node>
        ensures { MatchOption result (self.now.count ≤ node) (λ d. (node < self.now.count) × (d ≡ at self.now.nodes node)) }
    {
        self.standing().get(node).copied()
    }

    // One node more, behind the others.
    fn add(&mut self, node: Node)
        requires { self.old.count < 1088 }
        ensures rows { self.new.nodes ≡ slice_set self.old.nodes self.old.count node }
        ensures counted { self.new.count ≡ self.old.count + 1 }
    {
        self.nodes[self.count] = node;
        self.count += 1;
    }

    // The last node no longer stands.
    fn remove(&mut self)
        requires { 0 < self.old.count }
        ensures rows { self.new.nodes ≡ self.old.nodes }
        ensures counted { self.new.count ≡ self.old.count - 1 }
    {
        self.count -= 1;
    }
}

// A prefix graph: columns, and joins of two nodes whose spans meet.
#[derive(Drop)]
pub struct Sheet {
    columns: usize,
    table: Table,
    ghost wide: { (1 ≤ columns) × (columns ≤ 64) },
    ghost room: { (columns ≤ table.count) × (table.count ≤ columns + 1024) },
    ghost founded: { Founded columns table.nodes table.count },
    ghost upward: { Upward columns table.nodes table.count },
    ghost spelled: { Spelled columns table.nodes table.count },
}
