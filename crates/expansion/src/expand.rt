ghost use Rattle.std.specs.Prelude.{◌≡◌, ℕ, ◌+◌, ◌*◌, ◌<◌, ◌≤◌, true, map, length, take, nat_lt, ◌++◌};
ghost use Rattle.std.specs.List.{prefix_len};
ghost use Rattle.kinds.specs.Template.{within, keeps};
ghost use Rattle.account.specs.Account.{nodes};
ghost use Rattle.sheet.specs.Closing.{account_of};
ghost use Rattle.sheet.specs.Spans.{pair_of};
ghost use Rattle.expansion.specs.Expansion.{net, placed, gates_for, nets_for, written, appended, wired, column_nets, grown_to, admitted, expanded, Computes, Prefixes, Stands};
ghost use Rattle.netlist.specs.Refusals.{count, number};

use kinds::kind::Kind;
use kinds::template::{Pin, TemplateGate};
use netlist::gate::{Gate, good_gates};
use netlist::refusal::{Refusal, Slots};
use netlist::simulation::{MOST_GATES, MOST_INPUTS};
use sheet::node::Node;
use sheet::sheet::closed::ClosedSheet;

// The nets of a join's operands, and the signal of its template's first gate.
#[derive(Drop)]
struct Operands<'a> {
    low: &'a [usize],
    high: &'a [usize],
    base: usize,
    ghost wide: { length high.now ≡ length low.now },
    ghost small: { base ≤ 2097152 },
}

impl Operands<'_> {
    // The signal that a pin reads.
    fn net(&self, pin: Pin) -> usize
        requires { within (length self.now.low.now) 256 pin ≡ true }
        ensures { result ≡ net self.now.low.now self.now.high.now self.now.base pin }
    {
        match pin {
            Pin::Low(k) => self.low[usize::from(k)],
            Pin::High(k) => self.high[usize::from(k)],
            Pin::Inner(k) => self.base + usize::from(k),
        }
    }

    // A template gate over those nets.
    fn gate(&self, gate: TemplateGate) -> Gate
        requires { keeps (length self.now.low.now) 256 gate ≡ true }
        ensures { result ≡ placed self.now.low.now self.now.high.now self.now.base gate }
    {
        // Field by field: a whole gate out of each case is copied once more, which takes twice as long.
        let (arity, a, b, table) = match gate {
            TemplateGate::Zero => (0, 0, 0, 0),
            TemplateGate::One(table, a) => (1, self.net(a), 0, table),
            TemplateGate::Two(table, a, b) => (2, self.net(a), self.net(b), table),
        };
        Gate { arity, a, b, table }
    }

    // Places a join of these operands: fills the slots with its gates and its nets.
    #[tactic(auto, using(kinds::proofs::Ranges::reach_at, crate::proofs::Placing::gate_keeps))]
    fn place<K: Kind>(&self, gates: &mut [Gate], nets: &mut [usize])
        requires wide { length self.now.low.now ≡ length K.Kind.results }
        requires gates { length gates.old ≡ length K.Kind.gates }
        requires most { length K.Kind.gates ≤ 256 }
        requires nets { length nets.old ≡ length K.Kind.results }
        ensures gates { gates.new ≡ map (placed self.now.low.now self.now.high.now self.now.base) K.Kind.gates }
        ensures nets { nets.new ≡ map (net self.now.low.now self.now.high.now self.now.base) K.Kind.results }
    {
        // Two loops of a line each; a function over a closure for both is no plainer.
        for (k, gate) in gates.iter_mut().enumerate() {
            *gate = self.gate(K::gate(k));
        }
        for (b, net) in nets.iter_mut().enumerate() {
            *net = self.net(K::result(b));
        }
    }
}

// Places a join, whose own nets stand from place at on, behind those of the nodes before it.
fn place_join<K: Kind>(join: &Node, base: usize, gates: &mut [Gate], at: usize, nets: &mut [usize])
    requires low { join.now.low * length K.Kind.results + length K.Kind.results ≤ at }
    requires high { join.now.high * length K.Kind.results + length K.Kind.results ≤ at }
    requires base { base ≤ 2097152 }
    requires gates { length gates.old ≡ length K.Kind.gates }
    requires most { length K.Kind.gates ≤ 256 }
    requires nets { at + length K.Kind.results ≡ length nets.old }
    ensures gates { gates.new ≡ gates_for K.Kind.gates K.Kind.results base (take at nets.old) (pair_of join.now) }
    ensures nets { nets.new ≡ take at nets.old ++ nets_for K.Kind.results base (take at nets.old) (pair_of join.now) }
{
    let w = K::NETS;
    let (before, own) = nets.split_at_mut(at);
    // The nets before are only read.
    let before = &before[..];
    let operands = Operands {
        low: &before[join.low * w..join.low * w + w],
        high: &before[join.high * w..join.high * w + w],
        base,
    };
    operands.place::<K>(gates, own);
}

// Appends the gates of all joins, and fills their nets.
fn append<K: Kind>(
    closed: &ClosedSheet,
    m: usize,
    gates: &mut [Gate],
    used: usize,
    nets: &mut [usize],
)
    requires inputs { m ≤ 1024 }
    requires room { grown_to K.Kind.gates (account_of closed.now) used ≤ length gates.old }
    requires few { grown_to K.Kind.gates (account_of closed.now) used ≤ 1048576 }
    requires nets { length nets.old ≡ nodes (account_of closed.now) * length K.Kind.results }
    ensures gates { gates.new ≡ written gates.old used (appended K.Kind.gates K.Kind.results (m + used) (column_nets K.Kind.results (account_of closed.now) nets.old) (account_of closed.now).joins) }
    ensures nets { nets.new ≡ wired K.Kind.gates K.Kind.results (m + used) (column_nets K.Kind.results (account_of closed.now) nets.old) (account_of closed.now).joins }
{
    let w = K::NETS;
    let size = K::size();
    // Places, and no chunks: a template may have no gates, and there are no chunks of 0.
    for (r, join) in closed.join_nodes().iter().enumerate() {
        let slot = used + r * size;
        let at = (closed.columns() + r) * w;
        place_join::<K>(
            join,
            m + slot,
            &mut gates[slot..slot + size],
            at,
            &mut nets[..at + w],
        );
    }
}

// How many of the nets are below limit, up to the first that is not.
fn nets_below(nets: &[usize], limit: usize) -> usize
    ensures { result ≡ prefix_len (λ k. nat_lt k limit) nets.now }
{
    nets.iter().take_while(|k| **k < limit).count()
}

// The used count after an expansion, or the first check that refuses it.
fn admit<K: Kind>(
    closed: &ClosedSheet,
    m: usize,
    gates: &[Gate],
    used: usize,
    nets: &[usize],
) -> Result<usize, Refusal>
    ensures { count result ≡ admitted K.Kind.gates K.Kind.results (account_of closed.now) m gates.now used nets.now }
{
    let n = closed.columns();
    let joins = closed.joins();
    if m > MOST_INPUTS {
        return Err(Refusal::Length(m));
    }
    if used > gates.len() || used > MOST_GATES {
        return Err(Refusal::Length(used));
    }
    if nets.len() != (n + joins) * K::NETS {
        return Err(Refusal::Length(nets.len()));
    }
    let good = good_gates(&gates[..used], m);
    if good < used {
        return Err(Refusal::BadGate(good));
    }
    let columns = &nets[..n * K::NETS];
    let below = nets_below(columns, m + used);
    if below < columns.len() {
        return Err(Refusal::BadNet(below));
    }
    let total = used + joins * K::size();
    if total > gates.len() || total > MOST_GATES {
        return Err(Refusal::Short(Slots::Gates));
    }
    Ok(total)
}

// Expands a closed sheet on a netlist of m inputs whose gates are the first used ones of the table:
// appends the template of each join, fills the join's nets, and answers the new used count. Bit b of
// node v is net v * w + b of the list, w being the kind's number of nets; the nets of the columns are
// given. Refused, in this order, where m, the used count or the list has a length that does not fit,
// a used gate is not good, a column net is no signal, or the gates have no room; then nothing is
// written. The gates and the nets are the caller's, with the count used beside them.
pub fn expand<K: Kind>(
    closed: &ClosedSheet,
    m: usize,
    gates: &mut [Gate],
    used: usize,
    nets: &mut [usize],
) -> Result<usize, Refusal>
    ensures answer { (count result, gates.new, nets.new) ≡ expanded K.Kind.gates K.Kind.results (account_of closed.now) m gates.old used nets.old }
    ensures computes { (total : ℕ) → count result ≡ number total → Computes K.Kind.times K.Kind.neutral K.Kind.bits (length K.Kind.results) (account_of closed.now) m (take used gates.old) nets.old (take total gates.new) nets.new }
    ensures prefixes { (total : ℕ) → count result ≡ number total → Prefixes K.Kind.times K.Kind.neutral K.Kind.bits (length K.Kind.results) (account_of closed.now) m (take used gates.old) nets.old (take total gates.new) nets.new }
    ensures stands { (total : ℕ) → count result ≡ number total → Stands m total gates.new nets.new }
{
    let grown = admit::<K>(closed, m, gates, used, nets)?;
    append::<K>(closed, m, gates, used, nets);
    Ok(grown)
}
