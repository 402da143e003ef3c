ghost use Rattle.std.specs.Prelude.{◌≡◌};
ghost use Rattle.account.specs.Measure.{takes};
ghost use Rattle.sheet.specs.Spans.{pair_of, spells_to};

// A node of a sheet. A column's operands are 0; a join's are the nodes low and high. It spells the
// columns from first to last. Operands are numbers of nodes, since the table has fixed memory, and a
// column's are not none, since joins stand apart behind the columns.
#[derive(Clone, Copy, Debug, PartialEq, Eq)]
pub struct Node {
    pub low: usize,
    pub high: usize,
    pub first: usize,
    pub last: usize,
}

impl Node {
    // Column i.
    pub(crate) fn column(i: usize) -> Node
        ensures { result ≡ record { low = 0; high = 0; first = i; last = i } }
    {
        Node {
            low: 0,
            high: 0,
            first: i,
            last: i,
        }
    }

    // The join of two nodes, where a and b are their records.
    pub(crate) fn joining(low: usize, high: usize, a: Node, b: Node) -> Node
        ensures { result ≡ record { low = low; high = high; first = a.first; last = b.last } }
    {
        Node {
            low,
            high,
            first: a.first,
            last: b.last,
        }
    }

    // Whether a join takes a node. Here and below both tests are made before any branch: `||` and `&&` take longer.
    pub(crate) fn takes(&self, node: usize) -> bool
        ensures { result ≡ takes node (pair_of self.now) }
    {
        (self.low == node) | (self.high == node)
    }

    // Whether it spells the columns from 0 to the given one.
    pub(crate) fn spells_to(&self, column: usize) -> bool
        ensures { result ≡ spells_to column self.now }
    {
        (self.first == 0) & (self.last == column)
    }

    // The columns that it spells.
    pub(crate) fn span(&self) -> Span
        ensures { result ≡ record { first = self.now.first; last = self.now.last } }
    {
        Span {
            first: self.first,
            last: self.last,
        }
    }
}

// The columns that a node spells, both ends included.
#[derive(Clone, Copy, Debug, PartialEq, Eq)]
pub struct Span {
    pub first: usize,
    pub last: usize,
}
