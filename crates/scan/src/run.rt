ghost use Rattle.std.specs.Prelude.{◌≡◌, ◌+◌, ◌<◌, length};
ghost use Rattle.sheet.specs.Closing.{account_of};
ghost use Rattle.netlist.specs.Refusals.{outcome, done};
ghost use Rattle.scan.specs.Values.{valued, ran, Folds, Prefixes};

use kinds::kind::Kind;
use netlist::refusal::Refusal;
use sheet::sheet::closed::ClosedSheet;

// Fills slot v with node v's element.
fn fill<K: Kind>(closed: &ClosedSheet, elements: &[K::Element], values: &mut [K::Element])
    requires columns { length elements.now ≡ (account_of closed.now).columns }
    requires nodes { length values.old ≡ length elements.now + length (account_of closed.now).joins }
    ensures { values.new ≡ valued K.Kind.times K.Kind.neutral elements.now (account_of closed.now).joins }
{
    let n = elements.len();
    values[..n].copy_from_slice(elements);
    for (r, join) in closed.join_nodes().iter().enumerate() {
        values[n + r] = K::product(values[join.low], values[join.high]);
    }
}

// Runs a closed sheet over elements, one to a column, and fills slot v with node v's element: the
// product of the columns that the node spells. So output i holds the product of columns 0 to i.
// Refused where the elements, then the values, are not as many as columns and nodes; the values are
// then left alone.
pub fn run<K: Kind>(
    closed: &ClosedSheet,
    elements: &[K::Element],
    values: &mut [K::Element],
) -> Result<(), Refusal>
    ensures answer { (outcome result, values.new) ≡ ran K.Kind.times K.Kind.neutral (account_of closed.now) elements.now values.old }
    ensures folds { outcome result ≡ done → Folds K.Kind.times K.Kind.neutral (account_of closed.now) elements.now values.new }
    ensures prefixes { outcome result ≡ done → Prefixes K.Kind.times K.Kind.neutral (account_of closed.now) elements.now values.new }
{
    if elements.len() != closed.columns() {
        return Err(Refusal::Length(elements.len()));
    }
    if values.len() != elements.len() + closed.joins() {
        return Err(Refusal::Length(values.len()));
    }
    fill::<K>(closed, elements, values);
    Ok(())
}
