ghost use Rattle.std.specs.Prelude.{◌≡◌, ◌+◌, ◌*◌, ◌<◌, ◌≤◌, length};
ghost use Rattle.account.specs.Account.{nodes};
ghost use Rattle.sheet.specs.Closing.{account_of};
ghost use Rattle.meaning.specs.Layout.{width as element_width, end_count, output_count, net_at, first_end, end_gate, output_net};

use crate::layout::Layout;
use meaning::block::Block;
use netlist::gate::{Gate, XOR};
use sheet::sheet::closed::ClosedSheet;

// A layout over the columns of a closed sheet, and the nets of all the sheet's nodes.
#[derive(Clone, Copy)]
pub(crate) struct Wired<'a> {
    pub(crate) layout: Layout,
    pub(crate) closed: &'a ClosedSheet<'a>,
    pub(crate) nets: &'a [usize],
    ghost columns: { layout.columns ≡ (account_of closed.now).columns },
    ghost complete: { length nets.now ≡ nodes (account_of closed.now) * element_width layout.block },
}

impl Wired<'_> {
    // The net that shows bit b of output i.
    #[tactic(auto, using(account::proofs::Measuring::output_node, expansion::proofs::Showing::row_in))]
    fn net_at(&self, i: usize, b: usize) -> usize
        requires output { i < (account_of self.now.closed.now).columns }
        requires bit { b < element_width self.now.layout.block }
        ensures { result ≡ net_at (element_width self.now.layout.block) (account_of self.now.closed.now) self.now.nets.now i b }
    {
        // Each column of a closed sheet has an output.
        let node = self.closed.output(i).unwrap();
        self.nets[node * self.layout.width() + b]
    }

    // End gate k.
    pub(crate) fn end_gate(&self, k: usize) -> Gate
        requires { k < end_count self.now.layout.block (account_of self.now.closed.now).columns }
        ensures { let w = self.now in let a = account_of w.closed.now in result ≡ end_gate w.layout.block a.columns (net_at (element_width w.layout.block) a w.nets.now) k }
    {
        let n = self.layout.columns;
        match self.layout.block {
            Block::Adder => Gate::two(XOR, 2 * n + 2 * (k + 1) + 1, self.net_at(k, 0)),
            Block::Comparator | Block::GrayDecoder | Block::Machine(_) => Gate::constant(false),
        }
    }

    // The signal of output k, where the end gates stand from signal first on.
    pub(crate) fn output_net(&self, first: usize, k: usize) -> usize
        requires few { k < output_count self.now.layout.block (account_of self.now.closed.now).columns }
        requires first { (first ≡ first_end self.now.layout.block (account_of self.now.closed.now)) × (first ≤ 2097152) }
        ensures { let w = self.now in let a = account_of w.closed.now in result ≡ output_net w.layout.block a.columns (net_at (element_width w.layout.block) a w.nets.now) (first_end w.layout.block a) k }
    {
        let n = self.layout.columns;
        match self.layout.block {
            Block::Adder if k == 0 => 2 * n + 1,
            Block::Adder if k < n => first + (k - 1),
            Block::Adder => self.net_at(n - 1, 0),
            Block::Comparator => self.net_at(n - 1, k),
            Block::GrayDecoder => self.net_at(n - 1 - k, 0),
            Block::Machine(machine) => self.net_at(k / 2, 2 * machine.start + k % 2),
        }
    }
}
