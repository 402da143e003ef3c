ghost use Rattle.kinds.specs.Carry.{carry_unit, carry_product, carry_bits, carry_gates, carry_results};
ghost use Rattle.kinds.specs.Laws.{carry_associative, carry_left, carry_right, carry_template};
ghost use Rattle.std.proofs.Common.{rules};

use crate::elements::Carry;
use crate::kind::Kind;
use crate::template::Pin::{self, High, Inner, Low};
use crate::template::TemplateGate::{self, Two};
use netlist::gate::{AND, OR};

const GATES: [TemplateGate; 3] = [
    Two(AND, High(1), Low(0)),
    Two(OR, High(0), Inner(0)),
    Two(AND, High(1), Low(1)),
];

const RESULTS: [Pin; 2] = [Inner(1), Inner(2)];

// Carries: high generates one, or passes on the one that low generates.
pub struct Carries;

impl Kind for Carries {
    type Element = Carry;

    const NETS: usize = 2;

    ghost NETS = { 2 };

    ghost neutral = { carry_unit };

    ghost times = { carry_product };

    ghost bits = { carry_bits };

    ghost gates = { carry_gates };

    ghost results = { carry_results };

    ghost counted = { Prim.search rules };

    ghost narrow = { Prim.search rules };

    ghost associative = { carry_associative };

    ghost left = { carry_left };

    ghost right = { carry_right };

    ghost wide = { Prim.search rules };

    ghost template = { carry_template };

    ghost well_formed = { Prim.search rules };

    ghost reaching = { Prim.search rules };

    fn unit() -> Carry {
        Carry {
            generate: false,
            propagate: true,
        }
    }

    fn product(low: Carry, high: Carry) -> Carry {
        Carry {
            generate: high.generate | (high.propagate & low.generate),
            propagate: high.propagate & low.propagate,
        }
    }

    fn bit(x: Carry, b: usize) -> u8 {
        match b {
            0 => x.generate as u8,
            1 => x.propagate as u8,
            _ => 0,
        }
    }

    fn size() -> usize {
        GATES.len()
    }

    fn gate(k: usize) -> TemplateGate {
        GATES.get(k).copied().unwrap_or(TemplateGate::Zero)
    }

    fn result(b: usize) -> Pin {
        RESULTS.get(b).copied().unwrap_or(Low(0))
    }
}
