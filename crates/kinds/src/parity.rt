ghost use Rattle.kinds.specs.Parity.{parity_unit, parity_product, parity_bits, parity_gates, parity_results};
ghost use Rattle.kinds.specs.Laws.{parity_associative, parity_right, parity_template};
ghost use Rattle.std.proofs.Common.{rules};

use crate::kind::Kind;
use crate::template::Pin::{self, High, Inner, Low};
use crate::template::TemplateGate::{self, Two};
use netlist::gate::XOR;

const GATES: [TemplateGate; 1] = [Two(XOR, Low(0), High(0))];

const RESULTS: [Pin; 1] = [Inner(0)];

// Parities: whether the number of ones is odd.
pub struct Parities;

impl Kind for Parities {
    type Element = bool;

    const NETS: usize = 1;

    ghost NETS = { 1 };

    ghost neutral = { parity_unit };

    ghost times = { parity_product };

    ghost bits = { parity_bits };

    ghost gates = { parity_gates };

    ghost results = { parity_results };

    ghost counted = { Prim.search rules };

    ghost narrow = { Prim.search rules };

    ghost associative = { parity_associative };

    ghost left = { Prim.search rules };

    ghost right = { parity_right };

    ghost wide = { Prim.search rules };

    ghost template = { parity_template };

    ghost well_formed = { Prim.search rules };

    ghost reaching = { Prim.search rules };

    fn unit() -> bool {
        false
    }

    fn product(low: bool, high: bool) -> bool {
        low ^ high
    }

    fn bit(x: bool, b: usize) -> u8 {
        match b {
            0 => x as u8,
            _ => 0,
        }
    }

    fn size() -> usize {
        GATES.len()
    }

    fn gate(k: usize) -> TemplateGate {
        GATES.get(k).copied().unwrap_or(TemplateGate::Zero)
    }

    fn result(b: usize) -> Pin {
        RESULTS.get(b).copied().unwrap_or(Low(0))
    }
}
