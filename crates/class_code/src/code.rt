//! The Code of a method (JVMS 4.7.3).

ghost use Rattle.std.specs.Prelude.{List, Option, ◌≡◌, Some, option_map, MatchOption};
ghost use Rattle.class_model.specs.declared.attribute_forms.Attribute.{out-Attribute};
ghost use Rattle.class_model.specs.declared.stack_map.StackFrame.{StackFrame};
ghost use Rattle.class_code.specs.Codes.{CodeParts, code_or, code_in, frames_or, stack_map_in, parts};

use class_model::{Attribute, Handler, StackFrame};

/// The parts of the code of a method.
#[derive(Clone, Copy, Drop)]
pub struct CodeView<'a> {
    pub max_stack: u16,
    pub max_locals: u16,
    pub code: &'a [u8],
    pub table: &'a [Handler],
    pub attributes: &'a [Attribute],
}

fn code_view(attribute: &Attribute) -> Option<CodeView<'_>>
    ensures { MatchOption result ((later : Option CodeParts) → code_or (out-Attribute attribute.now) later ≡ later)
        (λ view. (later : Option CodeParts) → code_or (out-Attribute attribute.now) later ≡ Some (parts view)) }
{
    match attribute {
        Attribute::Code {
            max_stack,
            max_locals,
            code,
            table,
            attributes,
            ..
        } => Some(CodeView {
            max_stack: *max_stack,
            max_locals: *max_locals,
            code: code.as_slice(),
            table: table.as_slice(),
            attributes: attributes.as_slice(),
        }),
        _ => None,
    }
}

/// The code among attributes.
#[tactic(auto, using(crate::proofs::Codes::code_step, crate::proofs::Codes::code_end))]
pub fn code_of(attributes: &[Attribute]) -> Option<CodeView<'_>>
    ensures { option_map parts result ≡ code_in attributes.now }
{
    for attribute in attributes {
        if let Some(view) = code_view(attribute) {
            return Some(view);
        }
    }
    None
}

fn frames_view(attribute: &Attribute) -> Option<&[StackFrame]>
    ensures { MatchOption result ((later : List StackFrame) → frames_or (out-Attribute attribute.now) later ≡ later)
        (λ frames. (later : List StackFrame) → frames_or (out-Attribute attribute.now) later ≡ frames.now) }
{
    match attribute {
        Attribute::StackMap { frames, .. } => Some(frames.as_slice()),
        _ => None,
    }
}

/// The frames of the stack map among attributes.
#[tactic(auto, using(crate::proofs::Codes::map_step, crate::proofs::Codes::map_end))]
pub fn stack_map(attributes: &[Attribute]) -> &[StackFrame]
    ensures { result.now ≡ stack_map_in attributes.now }
{
    for attribute in attributes {
        if let Some(frames) = frames_view(attribute) {
            return frames;
        }
    }
    &[]
}
