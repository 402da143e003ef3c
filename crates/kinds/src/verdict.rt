ghost use Rattle.kinds.specs.Verdict.{verdict_unit, verdict_product, verdict_bits, verdict_gates, verdict_results};
ghost use Rattle.kinds.specs.Laws.{verdict_associative, verdict_left, verdict_template};
ghost use Rattle.std.proofs.Common.{rules};

use crate::elements::Verdict;
use crate::kind::Kind;
use crate::template::Pin::{self, High, Inner, Low};
use crate::template::TemplateGate::{self, One, Two};
use netlist::gate::{AND, NOT, OR};

const GATES: [TemplateGate; 6] = [
    One(NOT, High(1)),
    Two(AND, Inner(0), Low(0)),
    Two(OR, High(0), Inner(1)),
    One(NOT, High(0)),
    Two(AND, Inner(3), Low(1)),
    Two(OR, High(1), Inner(4)),
];

const RESULTS: [Pin; 2] = [Inner(2), Inner(5)];

// Verdicts: high decides, unless it is equal.
pub struct Verdicts;

impl Kind for Verdicts {
    type Element = Verdict;

    const NETS: usize = 2;

    ghost NETS = { 2 };

    ghost neutral = { verdict_unit };

    ghost times = { verdict_product };

    ghost bits = { verdict_bits };

    ghost gates = { verdict_gates };

    ghost results = { verdict_results };

    ghost counted = { Prim.search rules };

    ghost narrow = { Prim.search rules };

    ghost associative = { verdict_associative };

    ghost left = { verdict_left };

    ghost right = { Prim.search rules };

    ghost wide = { Prim.search rules };

    ghost template = { verdict_template };

    ghost well_formed = { Prim.search rules };

    ghost reaching = { Prim.search rules };

    fn unit() -> Verdict {
        Verdict::Equal
    }

    fn product(low: Verdict, high: Verdict) -> Verdict {
        match high {
            Verdict::Equal => low,
            Verdict::Less | Verdict::Greater => high,
        }
    }

    fn bit(x: Verdict, b: usize) -> u8 {
        match (x, b) {
            (Verdict::Less, 0) | (Verdict::Greater, 1) => 1,
            _ => 0,
        }
    }

    fn size() -> usize {
        GATES.len()
    }

    fn gate(k: usize) -> TemplateGate {
        GATES.get(k).copied().unwrap_or(TemplateGate::Zero)
    }

    fn result(b: usize) -> Pin {
        RESULTS.get(b).copied().unwrap_or(Low(0))
    }
}
