ghost use Rattle.std.specs.Prelude.{◌≡◌, ◌/◌, ◌%◌, ◌^◌};
ghost use Rattle.netlist.specs.Gates.{row, row_value};

use crate::gate::Gate;

// The row of a table that two operand values pick.
fn row_of(arity: u8, a: u8, b: u8) -> u16
    ensures { result ≡ row arity a b }
{
    match arity {
        0 => 0,
        1 => a as u16,
        _ => 2 * a as u16 + b as u16,
    }
}

// A bit of a table, 0 past its last.
fn bit_at(table: u8, row: u16) -> u8
    ensures { result ≡ (table / 2 ^ row) % 2 }
{
    if row < 8 { (table >> row) % 2 } else { 0 }
}

// The value of a gate whose operands have the values a and b: the bit of its table at their row.
pub fn gate_value(gate: Gate, a: u8, b: u8) -> u8
    ensures { result ≡ row_value gate.arity gate.table a b }
{
    bit_at(gate.table, row_of(gate.arity, a, b))
}
