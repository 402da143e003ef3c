ghost use Rattle.std.specs.Prelude.{◌≡◌, ℕ, ◌≤◌, true, List, length, slice_index, slice_index_or};
ghost use Rattle.kinds.specs.declared.template.TemplateGate.{TemplateGate};
ghost use Rattle.kinds.specs.declared.template.Pin.{Pin};
ghost use Rattle.kinds.specs.declared.template.Pin.TheVariants.{Low};
ghost use Rattle.kinds.specs.Template.{shown, blank, formed, reach};

use crate::template::{Pin, TemplateGate};

// An element kind: elements with a product and a unit, the bits of an element, and a template of gates
// that turns the bits of two elements into those of their product.
pub trait Kind {
    type Element: Copy;

    // The number of nets that carry an element, 1 to 16.
    const NETS: usize;

    ghost NETS: { ℕ };

    ghost neutral: { Self.Element };

    ghost times: { Self.Element → Self.Element → Self.Element };

    ghost bits: { Self.Element → List ℕ };

    ghost gates: { List TemplateGate };

    // The pins that show the bits of the product.
    ghost results: { List Pin };

    fn unit() -> Self::Element
        ensures { result ≡ neutral };

    fn product(low: Self::Element, high: Self::Element) -> Self::Element
        ensures { result ≡ times low high };

    // Bit b of an element, 0 past the last net.
    fn bit(x: Self::Element, b: usize) -> u8
        ensures { result ≡ slice_index (bits x) b };

    // The number of nets.
    final fn width() -> usize
        ensures is { result ≡ length results }
        ensures most { (1 ≤ result) × (result ≤ 16) }
    {
        Self::NETS
    }

    // The template is asked for gate by gate, and not lent: a kind made of others has no table of its own.

    // The number of the template's gates, at most 256.
    fn size() -> usize
        ensures is { result ≡ length gates }
        ensures most { result ≤ 256 };

    // Gate k of the template, past its end the one that reads nothing.
    fn gate(k: usize) -> TemplateGate
        ensures { result ≡ slice_index_or gates k blank };

    // The pin that shows bit b of the product.
    fn result(b: usize) -> Pin
        ensures { result ≡ slice_index_or results b (Low 0) };

    ghost counted: { NETS ≡ length results };

    ghost narrow: { (1 ≤ NETS) × (NETS ≤ 16) };

    ghost associative: { (x y z : Self.Element) → times (times x y) z ≡ times x (times y z) };

    ghost left: { (x : Self.Element) → times neutral x ≡ x };

    ghost right: { (x : Self.Element) → times x neutral ≡ x };

    ghost wide: { (x : Self.Element) → length (bits x) ≡ length results };

    ghost template: { (l h : Self.Element) → shown gates results (bits l) (bits h) ≡ bits (times l h) };

    ghost well_formed: { formed (length results) 0 gates ≡ true };

    ghost reaching: { reach (length results) (length gates) results ≡ true };
}
