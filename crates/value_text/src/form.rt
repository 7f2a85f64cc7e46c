/// Whether a text is stored or printed. The two differ in longs and references.
#[derive(Clone, Copy, Debug, PartialEq, Eq)]
pub enum Form {
    Stored,
    Printed,
}
