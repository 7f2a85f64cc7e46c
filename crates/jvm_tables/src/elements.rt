//! The element types of `newarray`.

ghost use Rattle.std.specs.Prelude.{◌≡◌};
ghost use Rattle.jvm_tables.specs.Elements.{element_of, NamesElement};

/// The element type of an array of numbers or booleans. Arrays of floats and doubles can be made,
/// though no opcode reaches their elements.
#[derive(Clone, Copy, Debug, PartialEq, Eq, Drop)]
pub enum ElementKind {
    Boolean,
    Char,
    Float,
    Double,
    Byte,
    Short,
    Int,
    Long,
}

/// The element type of a code in `newarray` (JVMS 6.5), which is an instruction's first operand.
/// `None` for a number that is no such code.
pub fn element_kind(code: i32) -> Option<ElementKind>
    ensures { result ≡ element_of code }
{
    match code {
        4 => Some(ElementKind::Boolean),
        5 => Some(ElementKind::Char),
        6 => Some(ElementKind::Float),
        7 => Some(ElementKind::Double),
        8 => Some(ElementKind::Byte),
        9 => Some(ElementKind::Short),
        10 => Some(ElementKind::Int),
        11 => Some(ElementKind::Long),
        _ => None,
    }
}

/// A decoded `newarray` names an element type.
#[tactic(auto, using(crate::proofs::ElementCodes::names_element))]
pub fn newarray_names_an_element()
    ensures { NamesElement }
{}
