//! What is made of a result before it goes on (JVMS 6.5, invokedynamic of `metafactory`).

ghost use Rattle.std.specs.Prelude.{◌≡◌, IfOk, option_map};
ghost use Rattle.class_model.specs.TypeForms.{type_of};
ghost use Rattle.class_code.specs.Parts.{lambda_site};
ghost use Rattle.jvm_model.specs.Driving.{adapted, delivered};
ghost use Rattle.jvm_model.specs.Lambdas.{adaptation_of, implementing_result, result_of};
ghost use Rattle.jvm_model.specs.Plans.{end_of};
ghost use Rattle.jvm_state.specs.Frames.{adaptation_seen};
ghost use Rattle.jvm_state.specs.Names.{names};
ghost use Rattle.jvm_invoke.specs.Onwards.{goes_with, KeepsBelow};

use crate::machine::Machine;
use crate::onward::Onward;
use crate::settling::settle;
use class_code::{LambdaView, returned_of};
use class_model::{SiteId, TypeForm};
use jvm_heap::Slot;
use jvm_state::{Adaptation, Members};
use native_model::StepFault;

/// The type of what a method of a descriptor gives.
fn result_of(descriptor: &[u8]) -> Option<TypeForm<'_>>
    ensures { option_map type_of result ≡ result_of descriptor.now }
{
    match returned_of(descriptor) {
        Some(returned) => returned.form,
        None => None,
    }
}

/// The type of the new object of an `<init>`, or else of what the implementing method gives.
fn implementing_result<'a>(lambda: LambdaView<'a>) -> Option<TypeForm<'a>>
    ensures { option_map type_of result ≡ implementing_result (lambda_site lambda.entry) }
{
    if lambda.implementing.kind == 8 {
        Some(TypeForm {
            dimensions: 0,
            letter: b'L',
            class: lambda.implementing.member.owner,
        })
    } else {
        result_of(lambda.implementing.member.descriptor)
    }
}

/// What the implementing method of a lambda gives goes on as what the lambda's method gives.
#[tactic(auto, using(crate::proofs::Tried::attempts))]
fn convert<P: Members + Copy>(
    machine: &mut Machine<P>,
    site: SiteId,
    value: Option<Slot>,
) -> Result<Onward, StepFault>
    ensures gone { IfOk result (λ onward. end_of (P.oracle machine.old.program)
        (adapted (delivered machine.old.state.frames) machine.old.state.frames
        (adaptation_of (P.site_origin machine.old.program site).site)
        machine.old.state.shared value)
        ≡ goes_with (P.oracle machine.old.program) onward machine.new.state) }
    ensures frames { IfOk result (λ onward. KeepsBelow onward machine.old.state machine.new.state) }
    ensures program { machine.new.program ≡ machine.old.program }
{
    let program = *machine.program();
    let lambda = program.origin(site).site;
    let from = implementing_result(lambda);
    let to = result_of(lambda.instantiated);
    match machine.converted(from, to, value) {
        Ok(made) => Ok(Onward::Gives(made)),
        Err(stop) => Ok(Onward::Moves(settle(machine, stop)?)),
    }
}

/// A result is adapted, and goes on.
pub(crate) fn adapt<P: Members + Copy>(
    machine: &mut Machine<P>,
    adaptation: Adaptation,
    value: Option<Slot>,
) -> Result<Onward, StepFault>
    ensures gone { let n = names (P.class_name machine.old.program)
        (P.method_name machine.old.program) (P.field_name machine.old.program)
        (P.site_origin machine.old.program) (P.concatenation_at machine.old.program) in
        IfOk result (λ onward. end_of (P.oracle machine.old.program)
        (adapted (delivered machine.old.state.frames) machine.old.state.frames
        (adaptation_seen n adaptation) machine.old.state.shared value)
        ≡ goes_with (P.oracle machine.old.program) onward machine.new.state) }
    ensures frames { IfOk result (λ onward. KeepsBelow onward machine.old.state machine.new.state) }
    ensures program { machine.new.program ≡ machine.old.program }
{
    match adaptation {
        Adaptation::GivesObject(number) => Ok(Onward::Gives(Some(Slot::Ref(number)))),
        Adaptation::Converts(site) => convert(machine, site, value),
    }
}
