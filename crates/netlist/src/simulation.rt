ghost use Rattle.std.specs.Prelude.{◌≡◌, ◌+◌, ◌<◌, length};
ghost use Rattle.std.specs.List.{prefix_len};
ghost use Rattle.netlist.specs.Gates.{good_from};
ghost use Rattle.netlist.specs.Signals.{is_bit, signals, Settled};
ghost use Rattle.netlist.specs.Refusals.{outcome, done};
ghost use Rattle.netlist.specs.Simulation.{simulated};

use crate::gate::{Gate, good_gates};
use crate::refusal::Refusal;
use crate::value::gate_value;

// The most inputs and gates that a netlist may have.
pub const MOST_INPUTS: usize = 1024;

pub const MOST_GATES: usize = 1048576;

// How many of the bytes are 0 or 1, up to the first that is neither.
fn bits_in(inputs: &[u8]) -> usize
    ensures { result ≡ prefix_len is_bit inputs.now }
{
    inputs.iter().take_while(|b| **b < 2).count()
}

// Fills the value slots with the signals of a netlist whose gates are good.
fn fill(inputs: &[u8], gates: &[Gate], values: &mut [u8])
    requires gates { good_from (length inputs.now) gates.now ≡ length gates.now }
    requires values { length values.old ≡ length inputs.now + length gates.now }
    ensures { values.new ≡ signals inputs.now gates.now }
{
    let m = inputs.len();
    values[0..m].copy_from_slice(inputs);
    for (k, gate) in gates.iter().enumerate() {
        values[m + k] = gate_value(*gate, values[gate.a], values[gate.b]);
    }
}

// Fills slot v with the value of signal v, on these inputs. Refused, in this order, where a length does
// not fit, an input byte is neither 0 nor 1, or a gate is not good; the values are then left alone.
pub fn simulate(inputs: &[u8], gates: &[Gate], values: &mut [u8]) -> Result<(), Refusal>
    ensures answer { (outcome result, values.new) ≡ simulated inputs.now gates.now values.old }
    ensures settled { outcome result ≡ done → Settled inputs.now gates.now values.new }
{
    let m = inputs.len();
    if m > MOST_INPUTS {
        return Err(Refusal::Length(m));
    }
    if gates.len() > MOST_GATES {
        return Err(Refusal::Length(gates.len()));
    }
    if values.len() != m + gates.len() {
        return Err(Refusal::Length(values.len()));
    }
    let bits = bits_in(inputs);
    if bits < m {
        return Err(Refusal::InputByte(bits));
    }
    let good = good_gates(gates, m);
    if good < gates.len() {
        return Err(Refusal::BadGate(good));
    }
    fill(inputs, gates, values);
    Ok(())
}
