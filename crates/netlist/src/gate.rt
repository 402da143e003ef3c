ghost use Rattle.std.specs.Prelude.{◌≡◌, ◌+◌, ◌<◌, nat_lt};
ghost use Rattle.netlist.specs.Gates.{constant_gate, one_gate, two_gate, good, good_from};

// A gate of a netlist with m inputs. Signals 0 to m - 1 are the inputs, gate k is signal m + k.
// The arity, 0 to 2, says how many of the operands a and b it reads; both are signal numbers.
// Bit r of the table is the gate's value at row r: row 0, row a, or row 2a + b by arity.
// A record of numbers and no enum: a table may hold any record, and one that is not good is refused.
// Operands are numbers, and no references: the table is lent, and signals are known by their numbers.
#[derive(Clone, Copy, Debug, PartialEq, Eq, Hash)]
pub struct Gate {
    pub arity: u8,
    pub a: usize,
    pub b: usize,
    pub table: u8,
}

// The tables of the usual gates.

pub const NOT: u8 = 1;

pub const BUFFER: u8 = 2;

pub const AND: u8 = 8;

pub const OR: u8 = 14;

pub const XOR: u8 = 6;

impl Gate {
    // The constant 1 or 0; the constant 0 is a record of zeros.
    pub fn constant(value: bool) -> Gate
        ensures { result ≡ constant_gate value }
    {
        Gate {
            arity: 0,
            a: 0,
            b: 0,
            table: value as u8,
        }
    }

    // A gate of one operand.
    pub fn one(table: u8, a: usize) -> Gate
        ensures { result ≡ one_gate table a }
    {
        Gate {
            arity: 1,
            a,
            b: 0,
            table,
        }
    }

    // A gate of two operands.
    pub fn two(table: u8, a: usize, b: usize) -> Gate
        ensures { result ≡ two_gate table a b }
    {
        Gate {
            arity: 2,
            a,
            b,
            table,
        }
    }

    // Whether this is a good gate as gate k of a netlist with m inputs: it reads signals below its own,
    // its unused operands are 0, and its table has no bit past its rows.
    #[tactic(auto, unfolding(crate::specs::Gates::good))]
    pub fn is_good(self, m: usize, k: usize) -> bool
        ensures { result ≡ good (m + k) self }
    {
        match self.arity {
            0 => (self.table < 2) & (self.a == 0) & (self.b == 0),
            1 => (self.table < 4) & is_below(self.a, m, k) & (self.b == 0),
            2 => (self.table < 16) & is_below(self.a, m, k) & is_below(self.b, m, k),
            _ => false,
        }
    }
}

// Whether the signal comes before signal m + k, a sum that may pass the largest usize.
fn is_below(signal: usize, m: usize, k: usize) -> bool
    ensures { result ≡ nat_lt signal (m + k) }
{
    signal < m || signal - m < k
}

// How many gates of a netlist with m inputs are good, up to the first that is not.
pub fn good_gates(gates: &[Gate], m: usize) -> usize
    ensures { result ≡ good_from m gates.now }
{
    // A loop and no chain: with `take_while` and `count`, simulate takes a tenth longer.
    for (k, gate) in gates.iter().enumerate() {
        if !gate.is_good(m, k) {
            return k;
        }
    }
    gates.len()
}
