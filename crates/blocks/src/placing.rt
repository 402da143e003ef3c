ghost use Rattle.std.specs.Prelude.{◌≡◌, ℕ, ◌+◌, ◌*◌, ◌<◌, ◌≤◌, length, slice_index_or};
ghost use Rattle.sheet.specs.Closing.{account_of};
ghost use Rattle.netlist.specs.Refusals.{count};
ghost use Rattle.expansion.specs.Expansion.{expanded, written};
ghost use Rattle.meaning.specs.Layout.{template, results, width as element_width, leaf_count, end_count, output_count, leaves, column_nets, first_end, end_gates, buffers};

use crate::layout::Layout;
use crate::nets::Wired;
use expansion::expand::expand;
use kinds::carry::Carries;
use kinds::map::Maps;
use kinds::parity::Parities;
use kinds::verdict::Verdicts;
use meaning::block::Block;
use netlist::gate::{BUFFER, Gate};
use netlist::refusal::Refusal;
use sheet::sheet::closed::ClosedSheet;

// Writes f of 0, 1, .. into the slots.
fn fill_from<T: Copy, F: Fn(usize) -> T>(slots: &mut [T], f: F)
    requires { (k : ℕ) → k < length slots.old → F.pre f k }
    ensures { (k : ℕ) (d : T) → k < length slots.new → F.post f k (slice_index_or slots.new k d) }
{
    for (k, slot) in slots.iter_mut().enumerate() {
        *slot = f(k);
    }
}

// Writes the leaf gates from slot 0 on.
pub(crate) fn place_leaves(layout: Layout, gates: &mut [Gate])
    requires { leaf_count layout.block layout.columns ≤ length gates.old }
    ensures { gates.new ≡ written gates.old 0 (leaves layout.block layout.columns) }
{
    let count = layout.leaf_count();
    fill_from(&mut gates[..count], |k| layout.leaf_gate(k));
}

// Fills the nets of the columns.
pub(crate) fn place_columns(layout: Layout, nets: &mut [usize])
    requires { layout.columns * element_width layout.block ≤ length nets.old }
    ensures { nets.new ≡ written nets.old 0 (column_nets layout.block layout.columns) }
{
    let count = layout.columns * layout.width();
    fill_from(&mut nets[..count], |k| layout.column_net(k));
}

// Expands the joins with the template of the block's kind: a block is a value and a kind a type, and
// here the one picks the other.
pub(crate) fn place_joins(
    block: Block,
    closed: &ClosedSheet,
    m: usize,
    gates: &mut [Gate],
    used: usize,
    nets: &mut [usize],
) -> Result<usize, Refusal>
    ensures { (count result, gates.new, nets.new) ≡ expanded (template block) (results block) (account_of closed.now) m gates.old used nets.old }
{
    match block {
        Block::Adder => expand::<Carries>(closed, m, gates, used, nets),
        Block::Comparator => expand::<Verdicts>(closed, m, gates, used, nets),
        Block::GrayDecoder => expand::<Parities>(closed, m, gates, used, nets),
        Block::Machine(_) => expand::<Maps>(closed, m, gates, used, nets),
    }
}

// Writes the end gates from slot at on.
pub(crate) fn place_ends(wired: &Wired, gates: &mut [Gate], at: usize)
    requires { at + end_count wired.now.layout.block (account_of wired.now.closed.now).columns ≤ length gates.old }
    ensures { let w = wired.now in gates.new ≡ written gates.old at (end_gates w.layout.block (account_of w.closed.now) w.nets.now) }
{
    let count = wired.layout.end_count();
    fill_from(&mut gates[at..at + count], |k| wired.end_gate(k));
}

// Writes the output buffers from slot at on, where the end gates stand from signal first on.
pub(crate) fn place_buffers(wired: &Wired, gates: &mut [Gate], at: usize, first: usize)
    requires room { at + output_count wired.now.layout.block (account_of wired.now.closed.now).columns ≤ length gates.old }
    requires first { (first ≡ first_end wired.now.layout.block (account_of wired.now.closed.now)) × (first ≤ 2097152) }
    ensures { let w = wired.now in gates.new ≡ written gates.old at (buffers w.layout.block (account_of w.closed.now) w.nets.now) }
{
    let count = wired.layout.output_count();
    fill_from(&mut gates[at..at + count], |k| {
        Gate::one(BUFFER, wired.output_net(first, k))
    });
}
