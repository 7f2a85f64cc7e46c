//! The walk over the code of a method.

ghost use Rattle.std.specs.Prelude.{if◌then◌else◌, ◌≡◌, ◌<◌, ◌≤◌, Some, None, Ok, true, false, drop, length, option_and_then, IfOk, OnOk, OnErr, MatchBool, MatchResult};
ghost use Rattle.std.specs.Bool.{OnTrue};
ghost use Rattle.jvm_tables.specs.Opcodes.{row_of};
ghost use Rattle.jvm_tables.specs.Decoding.{decoding};
ghost use Rattle.class_verify.specs.Bodies.{first_point, shape_before, joined, joined_to};
ghost use Rattle.class_verify.specs.Decoded.{decoded, with_row, told};
ghost use Rattle.class_verify.specs.Effects.{left};
ghost use Rattle.class_verify.specs.Misfits.{named_cause, cause_of, cause_at, is_sound};
ghost use Rattle.class_verify.specs.Places.{begins};
ghost use Rattle.class_verify.specs.Ready.{IsReady, plain, seen};
ghost use Rattle.class_verify.specs.Stops.{StopsBy};
ghost use Rattle.class_verify.specs.Sweeps.{IsMet};
ghost use Rattle.class_verify.specs.declared.cause.Stop.TheVariants.{Misfit};
ghost use Rattle.class_code.specs.Control.{falls};
ghost use Rattle.class_verify.specs.Walks.{Moves, IsWalked, IsLeastStray, least_of};

use crate::body::{Body, Spot};
use crate::cause::{Cause, Stop};
use crate::effects::leave;
use crate::floats::uses_float;
use crate::frames::Written;
use crate::places::place_behind;
use crate::shape::Shape;
use crate::sweep::Sweep;
use class_code::{Use, has_unknown_site, local_of};
use jvm_tables::{CodeFault, Flow, Instr, OpRow, decode, op_row};
use std::alloc::AllocError;

fn with_row(instr: Instr) -> Result<(Instr, OpRow), Cause>
    ensures { result ≡ with_row instr (row_of instr.op) }
{
    match op_row(instr.op) {
        Some(row) => Ok((instr, row)),
        None => Err(Cause::BadCode),
    }
}

/// The instruction at a place with its row.
#[tactic(auto, unfolding(crate::specs::Decoded::decoded))]
fn decoded(code: &[u8], pc: usize) -> Result<(Instr, OpRow), Cause>
    requires within { pc < length code.now }
    requires short { length code.now ≤ 65535 }
    ensures found { result ≡ decoded code.now pc }
    ensures decoded { IfOk result (λ found. decoding pc (drop pc code.now) ≡ Ok found.0) }
    ensures place { IfOk result (λ found. found.0.pc ≡ pc) }
{
    match decode(code, pc as u32) {
        Ok(instr) => with_row(instr),
        Err(CodeFault::FloatOp(_)) => Err(Cause::FloatUsed),
        Err(CodeFault::UnknownOp(_)) => Err(Cause::BadCode),
        Err(CodeFault::CutShort) => Err(Cause::BadCode),
        Err(CodeFault::BadOperand) => Err(Cause::BadCode),
    }
}

/// Looks for a cause in what an instruction names.
#[tactic(auto, unfolding(crate::specs::Misfits::named_cause))]
fn check_names(body: &Body<'_>, instr: &Instr, row: &OpRow) -> Result<(), Stop>
    requires ready { IsReady body.now }
    requires decoded { decoding instr.now.pc (drop instr.now.pc body.now.code.now) ≡ Ok instr.now }
    ensures { MatchResult result (λ _. named_cause (plain body.now) instr.now.pc instr.now row.now ≡ None)
        (λ stop. StopsBy (named_cause (plain body.now) instr.now.pc instr.now row.now) stop) }
{
    if uses_float(body.tables, body.class, row, instr) || body.has_float_frame(instr.pc as usize) {
        return Err(Stop::Misfit(Cause::FloatUsed));
    }
    if has_unknown_site(&body.tables.unknown_sites, body.class, row, instr) {
        return Err(Stop::Misfit(Cause::UnknownBootstrap));
    }
    if !body.targets_begin(row.flow, instr) {
        return Err(Stop::Misfit(Cause::BadJump));
    }
    Ok(())
}

/// Makes what arrives the shape of a frame, into which it has to fit.
fn join(spot: &mut Spot, wanted: &Shape) -> Result<bool, AllocError>
    ensures place { spot.new.pc ≡ spot.old.pc }
    ensures sweep { spot.new.sweep ≡ record spot.old.sweep { is_settled = false } }
    ensures shape { IfOk result (λ is_there. MatchBool is_there (joined_to (seen spot.old).arrives wanted.now ≡ Some spot.new.shape) (joined_to (seen spot.old).arrives wanted.now ≡ None)) }
{
    spot.sweep.is_settled = false;
    if spot.is_reached && !spot.shape.fits(wanted) {
        return Ok(false);
    }
    spot.shape.copy_from(wanted)?;
    Ok(true)
}

/// Makes what arrives the shape before the instruction, if it has one.
#[tactic(auto, using(crate::proofs::Sweeping::unsettled), unfolding(crate::specs::Bodies::shape_before))]
fn enter(body: &Body<'_>, spot: &mut Spot) -> Result<bool, AllocError>
    requires ready { IsReady body.now }
    requires met { IsMet (plain body.now) spot.old.sweep spot.old.pc spot.old.shape.locals }
    ensures met { IfOk result (λ is_there. OnTrue is_there (IsMet (plain body.now) spot.new.sweep spot.new.pc spot.new.shape.locals)) }
    ensures place { spot.new.pc ≡ spot.old.pc }
    ensures shape { IfOk result (λ is_there. MatchBool is_there (shape_before (plain body.now) (seen spot.old) ≡ Some spot.new.shape) (shape_before (plain body.now) (seen spot.old) ≡ None)) }
{
    if spot.pc == 0 && body.first.is_none() {
        return Ok(false);
    }
    let Some(frame) = body.frame(spot.pc) else {
        return Ok(spot.is_reached);
    };
    match &frame.shape {
        Some(wanted) => join(spot, wanted),
        None => Ok(false),
    }
}

/// Makes the shape before an instruction what it leaves, and looks at all that depends on them.
fn check_shape(
    body: &Body<'_>,
    instr: &Instr,
    row: &OpRow,
    shape: &mut Shape,
    sweep: &mut Sweep,
    uses: &mut Use,
) -> Result<bool, AllocError>
    requires ready { IsReady body.now }
    requires met { IsMet (plain body.now) sweep.old instr.now.pc shape.old.locals }
    requires decoded { decoding instr.now.pc (drop instr.now.pc body.now.code.now) ≡ Ok instr.now }
    requires within { instr.now.pc < length body.now.code.now }
    ensures met { IfOk result (λ is_good. OnTrue is_good (IsMet (plain body.now) sweep.new instr.now.pc shape.new.locals)) }
    ensures shape { IfOk result (λ is_good. MatchBool is_good
        ((is_sound (plain body.now) row.now instr.now (Some shape.old) ≡ true) × (left body.now.class.now body.now.limits.stack row.now instr.now shape.old ≡ Some shape.new))
        (is_sound (plain body.now) row.now instr.now (Some shape.old) ≡ false)) }
{
    if !sweep.all_catch(body, instr.pc as usize, &shape.locals)? {
        return Ok(false);
    }
    let descriptors = &body.tables.descriptors;
    if !leave(
        descriptors,
        body.class,
        body.limits.stack,
        row,
        instr,
        shape,
        uses,
    )? {
        return Ok(false);
    }
    sweep.follow(row.writes, local_of(row, instr));
    Ok(body.targets_accept(shape, row.flow, instr) && body.ends_well(instr, row))
}

/// Looks for a cause at an instruction that decodes, and leaves in the spot what it leaves.
#[tactic(auto, unfolding(crate::specs::Misfits::cause_of))]
fn check(
    body: &Body<'_>,
    instr: &Instr,
    row: &OpRow,
    spot: &mut Spot,
    uses: &mut Use,
) -> Result<(), Stop>
    requires ready { IsReady body.now }
    requires decoded { decoding instr.now.pc (drop instr.now.pc body.now.code.now) ≡ Ok instr.now }
    requires within { instr.now.pc < length body.now.code.now }
    requires place { spot.old.pc ≡ instr.now.pc }
    requires met { IsMet (plain body.now) spot.old.sweep spot.old.pc spot.old.shape.locals }
    ensures met { OnOk result (IsMet (plain body.now) spot.new.sweep spot.new.pc spot.new.shape.locals) }
    ensures place { spot.new.pc ≡ spot.old.pc }
    ensures cause { MatchResult result (λ _. cause_of (plain body.now) (seen spot.old) instr.now row.now ≡ None)
        (λ stop. StopsBy (cause_of (plain body.now) (seen spot.old) instr.now row.now) stop) }
    ensures left { OnOk result (option_and_then (left body.now.class.now body.now.limits.stack row.now instr.now) (shape_before (plain body.now) (seen spot.old)) ≡ Some spot.new.shape) }
{
    check_names(body, instr, row)?;
    if !enter(body, spot)? {
        return Err(Stop::Misfit(Cause::BadFrame));
    }
    if !check_shape(body, instr, row, &mut spot.shape, &mut spot.sweep, uses)? {
        return Err(Stop::Misfit(Cause::BadFrame));
    }
    Ok(())
}

fn falls(flow: Flow) -> bool
    ensures { result ≡ falls flow }
{
    matches!(flow, Flow::Next | Flow::Branch)
}

/// Looks for a cause at an instruction, and goes on to the next one, if there is one.
#[tactic(auto, unfolding(crate::specs::Misfits::cause_at, crate::specs::Bodies::following))]
fn step(body: &Body<'_>, spot: &mut Spot, uses: &mut Use) -> Result<bool, Stop>
    requires ready { IsReady body.now }
    requires within { spot.old.pc < length body.now.code.now }
    requires met { IsMet (plain body.now) spot.old.sweep spot.old.pc spot.old.shape.locals }
    ensures met { IfOk result (λ goes_on. OnTrue goes_on (IsMet (plain body.now) spot.new.sweep spot.new.pc spot.new.shape.locals)) }
    ensures cause { MatchResult result (λ _. cause_at (plain body.now) (seen spot.old) ≡ None)
        (λ stop. StopsBy (cause_at (plain body.now) (seen spot.old)) stop) }
    ensures moves { IfOk result (λ goes_on. Moves (plain body.now) goes_on (seen spot.old) (seen spot.new)) }
    ensures rises { IfOk result (λ goes_on. OnTrue goes_on (spot.old.pc < spot.new.pc)) }
    ensures stays { OnErr result (spot.new.pc ≡ spot.old.pc) }
    ensures within { IfOk result (λ goes_on. OnTrue goes_on (spot.new.pc < length body.now.code.now)) }
{
    let (instr, row) = match decoded(body.code, spot.pc) {
        Ok(found) => found,
        Err(cause) => return Err(Stop::Misfit(cause)),
    };
    check(body, &instr, &row, spot, uses)?;
    match place_behind(body.code, spot.pc, &instr) {
        Some(pc) => {
            spot.pc = pc;
            spot.is_reached = falls(row.flow);
            Ok(true)
        }
        None => Ok(false),
    }
}

fn cause_in(stop: Stop) -> Result<Cause, AllocError>
    ensures { IfOk result (λ cause. stop ≡ Misfit cause) }
{
    match stop {
        Stop::Misfit(cause) => Ok(cause),
        Stop::Memory => Err(AllocError),
    }
}

/// The first cause at an instruction.
pub(crate) fn walk(
    body: &Body<'_>,
    spot: &mut Spot,
    uses: &mut Use,
) -> Result<Option<(u32, Cause)>, AllocError>
    requires ready { IsReady body.now }
    requires first { seen spot.old ≡ first_point (plain body.now) }
    requires met { IsMet (plain body.now) spot.old.sweep spot.old.pc spot.old.shape.locals }
    ensures { IfOk result (λ found. IsWalked (plain body.now) found) }
{
    'points: loop {
        match step(body, spot, uses) {
            Ok(true) => {}
            Ok(false) => return Ok(None),
            Err(stop) => return Ok(Some((spot.pc as u32, cause_in(stop)?))),
        }
    }
}

fn lesser(least: Option<u32>, at: u32) -> u32
    ensures { result ≡ least_of least at }
{
    match least {
        Some(least) => least.min(at),
        None => at,
    }
}

/// The least offset so far, with a further frame.
fn with_frame(body: &Body<'_>, frame: &Written, least: Option<u32>) -> Option<u32>
    requires { IsReady body.now }
    ensures { result ≡ (if begins body.now.code.now frame.now.at then least else Some (least_of least frame.now.at)) }
{
    if body.begins(frame.at as usize) {
        least
    } else {
        Some(lesser(least, frame.at))
    }
}

/// The least offset among frames at which no instruction begins.
fn least_among(body: &Body<'_>, frames: &[Written]) -> Option<u32>
    requires { IsReady body.now }
    ensures { IsLeastStray body.now.code.now frames.now result }
{
    let mut least = None;
    for frame in frames {
        least = with_frame(body, frame, least);
    }
    least
}

/// The least offset of a frame at which no instruction begins.
pub(crate) fn least_stray(body: &Body<'_>) -> Option<u32>
    requires { IsReady body.now }
    ensures { IsLeastStray body.now.code.now body.now.frames result }
{
    least_among(body, body.frames.as_slice())
}
