// What a template gate reads: a bit of low, a bit of high, or an earlier gate of the template.
#[derive(Clone, Copy, Debug, PartialEq, Eq, Hash)]
pub enum Pin {
    Low(u8),
    High(u8),
    Inner(u8),
}

// A gate of a template: one that reads nothing and is 0, or a table over one pin or two.
#[derive(Clone, Copy, Debug, PartialEq, Eq, Hash)]
pub enum TemplateGate {
    Zero,
    One(u8, Pin),
    Two(u8, Pin, Pin),
}
