ghost use Rattle.std.specs.Prelude.{◌≡◌, fold};

use crate::kind::Kind;

// The product of the elements from the left, the unit for none.
pub fn fold<K: Kind>(elements: &[K::Element]) -> K::Element
    ensures { result ≡ fold K.Kind.times K.Kind.neutral elements.now }
{
    elements
        .iter()
        .fold(K::unit(), |total, x| K::product(total, *x))
}
