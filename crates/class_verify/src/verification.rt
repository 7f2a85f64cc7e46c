//! Verification of methods and classes.

ghost use Rattle.std.specs.Prelude.{List, Option, ◌≡◌, ◌<◌, ◌≤◌, ◌^◌, ◌∷◌, ◌++◌, [], All, IfOk, IfErr, OnOk, IsOkUnless, Some, None, length, map, option_map, unwrap_or, MatchOption};
ghost use Rattle.class_model.specs.declared.attribute_forms.Attribute.{out-Attribute};
ghost use Rattle.class_model.specs.declared.stack_map.StackFrame.{StackFrame};
ghost use Rattle.class_model.specs.Constants.{text_at};
ghost use Rattle.class_model.specs.Shape.{Shaped, IsMethod, descriptor_text, name_text, is_static};
ghost use Rattle.class_verify.specs.declared.fault.VerifyFault.TheVariants as verify_fault;
ghost use Rattle.class_verify.specs.Frames.{type_of, own_kinds, first_kinds, shape_of, frames_from};
ghost use Rattle.class_code.specs.Codes.{parts, stack_map_in, code_in};
ghost use Rattle.class_verify.specs.Misfits.{BodyFits, IsFirstMisfit};
ghost use Rattle.class_verify.specs.Bodies.{first_point};
ghost use Rattle.class_verify.specs.Walks.{IsWalked, IsLeastStray, earlier};
ghost use Rattle.class_verify.specs.Ready.{IsReady, plain, seen};
ghost use Rattle.class_verify.specs.Sweeps.{IsFresh};
ghost use Rattle.class_verify.specs.ConstantTables.{AreTables};
ghost use Rattle.class_code.specs.Types.{result_kind};
ghost use Rattle.class_verify.specs.Verified.{fault_of, body_of, CodeFits, MethodFits, Fits, IsMethodMisfit, IsNamed, IsRefusal, IsMisfitIn, IsMisfitOf};

use crate::body::{Body, Spot};
use crate::cause::Cause;
use crate::constant_tables::{ConstantTables, tables_of};
use crate::fault::VerifyFault;
use crate::frames::{Limits, Written, frames_of, shape_of, types_of};
use crate::locals::Locals;
use crate::places::{framed, marks_of};
use crate::shape::Shape;
use crate::stack::Stack;
use crate::sweep::Sweep;
use crate::walk::{least_stray, walk};
use class_code::{CodeView, Use, code_of, has_float, read_kinds, stack_map};
use class_index::Index;
use class_model::{Attribute, Class, Handler, Member, MethodId, Name, Pool, StackFrame};
use jvm_tables::ValueKind;
use sqlite_items::Items;
use std::alloc::{AllocError, Global};

fn text_of(pool: &Pool, number: u16) -> &[u8]
    ensures { result.now ≡ unwrap_or (text_at pool.now number) [] }
{
    match pool.text(number) {
        Some(text) => text,
        None => &[],
    }
}

/// The kinds of the locals before the parameters.
fn own_kinds(alloc: Global, flags: u16) -> Result<Vec<ValueKind>, AllocError>
    ensures { IfOk result (λ kinds. kinds.items ≡ own_kinds flags) }
{
    let mut kinds = Vec::new(alloc);
    if flags & 0x0008 == 0 {
        kinds.push(ValueKind::Reference)?;
    }
    Ok(kinds)
}

/// The kinds of the locals as a method begins, and that of its result.
fn signature(
    alloc: Global,
    flags: u16,
    descriptor: &[u8],
) -> Result<(Vec<ValueKind>, Option<ValueKind>), AllocError>
    ensures kinds { IfOk result (λ s. s.0.items ≡ first_kinds flags descriptor.now) }
    ensures result_kind { IfOk result (λ s. s.1 ≡ result_kind descriptor.now) }
{
    let mut kinds = own_kinds(alloc, flags)?;
    match read_kinds(descriptor, &mut kinds)? {
        Some(returned) => Ok((kinds, returned.kind())),
        None => Ok((own_kinds(alloc, flags)?, None)),
    }
}

/// The shape as a method begins, given the kinds of its first locals, and the frames of its stack map.
fn shapes(
    alloc: Global,
    limits: Limits,
    kinds: &[ValueKind],
    attributes: &[Attribute],
) -> Result<(Option<Shape>, Items<Written>), AllocError>
    requires { length (stack_map_in attributes.now) < 2 ^ 16 }
    ensures first { IfOk result (λ s. s.0 ≡ shape_of limits (map type_of kinds.now) []) }
    ensures frames { IfOk result (λ s. s.1 ≡ frames_from limits 0 (map type_of kinds.now) (stack_map_in attributes.now)) }
{
    let types = types_of(alloc, kinds)?;
    let first = shape_of(alloc, limits, types.as_slice(), &[])?;
    let frames = frames_of(alloc, limits, types.as_slice(), stack_map(attributes))?;
    Ok((first, frames))
}

/// The code of a method with its tables.
#[tactic(auto, unfolding(crate::specs::Verified::body_of))]
fn body<'a>(
    alloc: Global,
    class: &'a Class,
    tables: &'a ConstantTables,
    method: &Member,
    code: CodeView<'a>,
) -> Result<Body<'a>, AllocError>
    requires tables { AreTables class.now tables.now }
    requires some { 0 < length code.code.now }
    requires short { length code.code.now ≤ 65535 }
    requires frames { length (stack_map_in code.attributes.now) < 2 ^ 16 }
    ensures ready { IfOk result (λ body. IsReady body) }
    ensures body { IfOk result (λ body. plain body ≡ body_of class.now method.now (parts code.entry)) }
{
    let limits = Limits {
        stack: usize::from(code.max_stack),
        locals: usize::from(code.max_locals),
    };
    let descriptor = text_of(&class.pool, method.descriptor);
    let (kinds, result_kind) = signature(alloc, method.flags, descriptor)?;
    let (first, frames) = shapes(alloc, limits, kinds.as_slice(), code.attributes)?;
    let marks = marks_of(alloc, code.code)?;
    let framed = framed(alloc, code.code, frames.as_slice())?;
    Ok(Body {
        class,
        tables,
        result: result_kind,
        limits,
        code: code.code,
        table: code.table,
        first,
        frames,
        marks,
        framed,
    })
}

/// The shape with which a walk begins.
fn first_spot(alloc: Global, body: &Body<'_>) -> Result<Spot, AllocError>
    ensures first { IfOk result (λ spot. seen spot ≡ first_point (plain body.now)) }
    ensures fresh { IfOk result (λ spot. IsFresh body.now.table.now spot.sweep) }
{
    let mut shape = Shape {
        stack: Stack::new(alloc),
        locals: Locals::new(alloc),
    };
    let is_reached = match &body.first {
        Some(first) => {
            shape.copy_from(first)?;
            true
        }
        None => false,
    };
    Ok(Spot {
        pc: 0,
        is_reached,
        shape,
        sweep: Sweep::new(alloc, body.table)?,
    })
}

/// Of a cause at an instruction and a frame at no instruction the one at the lesser pc.
fn earlier(found: Option<(u32, Cause)>, stray: Option<u32>) -> Option<(u32, Cause)>
    ensures { result ≡ earlier found stray }
{
    match stray {
        None => found,
        Some(pc) => match found {
            None => Some((pc, Cause::BadFrame)),
            Some((at, cause)) => {
                if pc < at {
                    Some((pc, Cause::BadFrame))
                } else {
                    Some((at, cause))
                }
            }
        },
    }
}

/// The first misfit of code.
#[tactic(auto, using(crate::proofs::Firsts::earlier_is_first, crate::proofs::Sweeping::fresh_met))]
fn first_misfit(
    alloc: Global,
    body: &Body<'_>,
    uses: &mut Use,
) -> Result<Option<(u32, Cause)>, AllocError>
    requires { IsReady body.now }
    ensures { IfOk result (λ found. MatchOption found (BodyFits (plain body.now)) (λ m. IsFirstMisfit (plain body.now) m.0 m.1)) }
{
    let mut spot = first_spot(alloc, body)?;
    let found = walk(body, &mut spot, uses)?;
    Ok(earlier(found, least_stray(body)))
}

/// The first misfit of a method with code.
pub(crate) fn code_misfit(
    alloc: Global,
    class: &Class,
    tables: &ConstantTables,
    method: &Member,
    code: CodeView<'_>,
    uses: &mut Use,
) -> Result<Option<(u32, Cause)>, AllocError>
    requires tables { AreTables class.now tables.now }
    requires code { code_in method.now.attributes ≡ Some (parts code) }
    requires some { 0 < length code.code.now }
    requires short { length code.code.now ≤ 65535 }
    requires frames { length (stack_map_in code.attributes.now) < 2 ^ 16 }
    ensures { IfOk result (λ found. MatchOption found (MethodFits class.now method.now) (λ m. IsMethodMisfit class.now method.now m.0 m.1)) }
{
    if has_float(text_of(&class.pool, method.descriptor)) {
        return Ok(Some((0, Cause::FloatUsed)));
    }
    let body = body(alloc, class, tables, method, code)?;
    first_misfit(alloc, &body, uses)
}

/// The first misfit of a method.
fn method_misfit(
    alloc: Global,
    class: &Class,
    tables: &ConstantTables,
    method: &Member,
    uses: &mut Use,
) -> Result<Option<(u32, Cause)>, AllocError>
    requires tables { AreTables class.now tables.now }
    requires method { IsMethod class.now.pool method.now }
    ensures { IfOk result (λ found. MatchOption found (MethodFits class.now method.now) (λ m. IsMethodMisfit class.now method.now m.0 m.1)) }
{
    match code_of(method.attributes.as_slice()) {
        Some(code) => code_misfit(alloc, class, tables, method, code, uses),
        None => Ok(None),
    }
}

fn method_id(alloc: Global, class: &Class, method: &Member) -> Result<MethodId, AllocError>
    requires class { Shaped class.now }
    requires method { IsMethod class.now.pool method.now }
    ensures { IfOk result (λ id. IsNamed class.now method.now id) }
{
    let name = Name::of_valid(alloc, text_of(&class.pool, method.name))?;
    let descriptor = Name::of_valid(alloc, text_of(&class.pool, method.descriptor))?;
    let class = Name::of_valid(alloc, class.name())?;
    Ok(MethodId {
        class,
        name,
        descriptor,
    })
}

fn fault_of(id: MethodId, pc: u32, cause: Cause) -> VerifyFault
    ensures { result ≡ fault_of id pc cause }
{
    match cause {
        Cause::FloatUsed => VerifyFault::FloatUsed(id),
        Cause::BadCode => VerifyFault::BadCode(id, pc),
        Cause::BadJump => VerifyFault::BadJump(id, pc),
        Cause::UnknownBootstrap => VerifyFault::UnknownBootstrap(id, pc),
        Cause::BadFrame => VerifyFault::BadFrame(id, pc),
    }
}

/// The refusal for a misfit of a method.
fn refusal(alloc: Global, class: &Class, method: &Member, pc: u32, cause: Cause) -> VerifyFault
    requires class { Shaped class.now }
    requires method { IsMethod class.now.pool method.now }
    ensures { IsRefusal class.now method.now pc cause result }
{
    match method_id(alloc, class, method) {
        Ok(id) => fault_of(id, pc, cause),
        Err(_) => VerifyFault::Memory,
    }
}

/// Refuses the first method in file order that doesn't fit.
fn verify_methods(
    alloc: Global,
    class: &Class,
    tables: &ConstantTables,
    methods: &[Member],
    uses: &mut Use,
) -> Result<(), VerifyFault>
    requires class { Shaped class.now }
    requires tables { AreTables class.now tables.now }
    requires methods { All (IsMethod class.now.pool) methods.now }
    ensures ok { OnOk result (All (MethodFits class.now) methods.now) }
    ensures fault { IfErr result (λ fault. IsMisfitIn class.now methods.now fault) }
{
    for method in methods {
        let found = method_misfit(alloc, class, tables, method, uses)?;
        if let Some((pc, cause)) = found {
            return Err(refusal(alloc, class, method, pc, cause));
        }
    }
    Ok(())
}

/// Whether every code of a class fits (JVMS 4.10.1, over kinds). The index is asked nothing, since kinds don't ask for
/// the hierarchy. A refusal names the first method in file order that doesn't fit, and its first misfit by pc.
#[tactic(auto, using(crate::proofs::Verifying::only_memory, crate::proofs::Sizes::all_methods))]
pub fn verify(alloc: Global, _index: &Index, class: &Class) -> Result<(), VerifyFault>
    requires { Shaped class.now }
    ensures ok { OnOk result (Fits class.now) }
    ensures only { Fits class.now → IsOkUnless result VerifyFault.Memory }
    ensures fault { IfErr result (λ fault. IsMisfitOf class.now fault) }
{
    let tables = tables_of(alloc, class)?;
    let mut uses = Use::new(alloc);
    verify_methods(alloc, class, &tables, class.methods.as_slice(), &mut uses)
}
