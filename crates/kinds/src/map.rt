ghost use Rattle.kinds.specs.Map.{map_unit, map_product, map_bits, map_gates, map_results};
ghost use Rattle.kinds.specs.Laws.{map_associative, map_right, map_template};
ghost use Rattle.std.proofs.Common.{rules};

use crate::elements::{Map, State};
use crate::kind::Kind;
use crate::maptable::{GATES, RESULTS};
use crate::template::{Pin, TemplateGate};

// Maps of four states: low's first, then high's.
pub struct Maps;

impl Kind for Maps {
    type Element = Map;

    const NETS: usize = 8;

    ghost NETS = { 8 };

    ghost neutral = { map_unit };

    ghost times = { map_product };

    ghost bits = { map_bits };

    ghost gates = { map_gates };

    ghost results = { map_results };

    ghost counted = { Prim.search rules };

    ghost narrow = { Prim.search rules };

    ghost associative = { map_associative };

    ghost left = { Prim.search rules };

    ghost right = { map_right };

    ghost wide = { Prim.search rules };

    ghost template = { map_template };

    ghost well_formed = { Prim.search rules };

    ghost reaching = { Prim.search rules };

    fn unit() -> Map {
        Map {
            e0: State::S0,
            e1: State::S1,
            e2: State::S2,
            e3: State::S3,
        }
    }

    fn product(low: Map, high: Map) -> Map {
        Map {
            e0: high.at(low.e0),
            e1: high.at(low.e1),
            e2: high.at(low.e2),
            e3: high.at(low.e3),
        }
    }

    fn bit(x: Map, b: usize) -> u8 {
        match b {
            0 => x.e0.low_bit(),
            1 => x.e0.high_bit(),
            2 => x.e1.low_bit(),
            3 => x.e1.high_bit(),
            4 => x.e2.low_bit(),
            5 => x.e2.high_bit(),
            6 => x.e3.low_bit(),
            7 => x.e3.high_bit(),
            _ => 0,
        }
    }

    fn size() -> usize {
        GATES.len()
    }

    fn gate(k: usize) -> TemplateGate {
        GATES.get(k).copied().unwrap_or(TemplateGate::Zero)
    }

    fn result(b: usize) -> Pin {
        RESULTS.get(b).copied().unwrap_or(Pin::Low(0))
    }
}
