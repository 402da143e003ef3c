ghost use Rattle.std.specs.Prelude.{◌≡◌, ◌*◌, ◌<◌, ◌≤◌, length};
ghost use Rattle.std.specs.Option.{unwrap_or};
ghost use Rattle.meaning.specs.Layout.{template, width as element_width, input_count, leaf_count, end_count, output_count, adder_leaf, comparator_leaf, symbol_gate, machine_leaf, leaf_gate, column_net};
ghost use Rattle.blocks.specs.Building.{start_of, start_if_any};

use kinds::carry::Carries;
use kinds::kind::Kind;
use kinds::map::Maps;
use kinds::parity::Parities;
use kinds::verdict::Verdicts;
use meaning::block::{Block, Machine};
use netlist::gate::{AND, BUFFER, Gate, NOT, XOR};

// The start state of a block that has one.
pub(crate) fn start_of(block: Block) -> Option<usize>
    ensures some { result ≡ start_if_any block }
    ensures number { unwrap_or result 0 ≡ start_of block }
{
    match block {
        Block::Machine(machine) => Some(machine.start),
        Block::Adder | Block::Comparator | Block::GrayDecoder => None,
    }
}

// A block over a sheet's columns, of which there are at most 64. It starts in one of its states.
#[derive(Clone, Copy)]
pub(crate) struct Layout {
    pub(crate) block: Block,
    pub(crate) columns: usize,
    ghost narrow: { columns ≤ 64 },
    ghost starts: { start_of block ≤ 3 },
}

impl Layout {
    // The number of inputs.
    pub(crate) fn input_count(self) -> usize
        ensures { result ≡ input_count self.block self.columns }
    {
        match self.block {
            Block::Adder | Block::Comparator => 2 * self.columns,
            Block::GrayDecoder | Block::Machine(_) => self.columns,
        }
    }

    // The number of leaf gates.
    pub(crate) fn leaf_count(self) -> usize
        ensures { result ≡ leaf_count self.block self.columns }
    {
        match self.block {
            Block::Adder => 2 * self.columns,
            Block::Comparator => 4 * self.columns,
            Block::GrayDecoder => 0,
            Block::Machine(_) => 8 * self.columns,
        }
    }

    // The number of end gates.
    pub(crate) fn end_count(self) -> usize
        ensures { result ≡ end_count self.block self.columns }
    {
        match self.block {
            Block::Adder => self.columns.saturating_sub(1),
            Block::Comparator | Block::GrayDecoder | Block::Machine(_) => 0,
        }
    }

    // The number of outputs.
    pub(crate) fn output_count(self) -> usize
        ensures { result ≡ output_count self.block self.columns }
    {
        match self.block {
            Block::Adder => self.columns + 1,
            Block::Comparator => 2,
            Block::GrayDecoder => self.columns,
            Block::Machine(_) => 2 * self.columns,
        }
    }

    // The number of nets that carry an element: a block is a value and a kind a type, and here, below
    // and at `place_joins` the one picks the other.
    pub(crate) fn width(self) -> usize
        ensures { result ≡ element_width self.block }
    {
        match self.block {
            Block::Adder => Carries::width(),
            Block::Comparator => Verdicts::width(),
            Block::GrayDecoder => Parities::width(),
            Block::Machine(_) => Maps::width(),
        }
    }

    // The number of gates of a join.
    pub(crate) fn join_size(self) -> usize
        ensures { result ≡ length (template self.block) }
    {
        match self.block {
            Block::Adder => Carries::size(),
            Block::Comparator => Verdicts::size(),
            Block::GrayDecoder => Parities::size(),
            Block::Machine(_) => Maps::size(),
        }
    }

    // Leaf gate k of all columns.
    pub(crate) fn leaf_gate(self, k: usize) -> Gate
        requires { k < leaf_count self.block self.columns }
        ensures { result ≡ leaf_gate self.block self.columns k }
    {
        match self.block {
            Block::Adder => self.adder_leaf(k / 2, k % 2),
            Block::Comparator => self.comparator_leaf(k / 4, k % 4),
            Block::GrayDecoder => Gate::constant(false),
            Block::Machine(machine) => machine_leaf(machine, k / 8, k % 8),
        }
    }

    // Gate j of the adder's leaf gates of column i.
    fn adder_leaf(self, i: usize, j: usize) -> Gate
        requires { i < self.columns }
        ensures { result ≡ adder_leaf self.columns i j }
    {
        let b = self.columns + i;
        match j {
            0 => Gate::two(AND, i, b),
            _ => Gate::two(XOR, i, b),
        }
    }

    // Gate j of the comparator's leaf gates of column i.
    fn comparator_leaf(self, i: usize, j: usize) -> Gate
        requires { i < self.columns }
        ensures { result ≡ comparator_leaf self.columns i j }
    {
        let b = self.columns + i;
        let first = 2 * self.columns + 4 * i;
        match j {
            0 => Gate::one(NOT, i),
            1 => Gate::two(AND, first, b),
            2 => Gate::one(NOT, b),
            _ => Gate::two(AND, i, first + 2),
        }
    }

    // Net k of all columns.
    pub(crate) fn column_net(self, k: usize) -> usize
        requires { k < self.columns * element_width self.block }
        ensures { result ≡ column_net self.block self.columns k }
    {
        match self.block {
            Block::Adder => 2 * self.columns + k,
            Block::Comparator => 2 * self.columns + 2 * k + 1,
            Block::GrayDecoder => self.columns - 1 - k,
            Block::Machine(_) => self.columns + k,
        }
    }
}

// The bit that is x at symbol 0 and y at symbol 1.
fn symbol_gate(x: u8, y: u8, symbol: usize) -> Gate
    ensures { result ≡ symbol_gate x y symbol }
{
    if x == y {
        return Gate::constant(y == 1);
    }
    let table = if y == 1 { BUFFER } else { NOT };
    Gate::one(table, symbol)
}

// Gate j of a machine's leaf gates of column i.
fn machine_leaf(machine: Machine, i: usize, j: usize) -> Gate
    ensures { result ≡ machine_leaf machine i j }
{
    symbol_gate(Maps::bit(machine.zero, j), Maps::bit(machine.one, j), i)
}
