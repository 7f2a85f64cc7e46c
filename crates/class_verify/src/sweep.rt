//! The ranges of an exception table, met in the order of their starts as a walk goes on. A range is looked at where it
//! begins, and again where a local was changed, and not at each instruction.

ghost use Rattle.std.specs.Prelude.{◌≡◌, ◌+◌, Bool, List, Some, true, false, IfOk, OnOk, MatchBool, is_none, slice_get};
ghost use Rattle.std.specs.Bool.{OnTrue};
ghost use Rattle.std.specs.List.{filter, list_all};
ghost use Rattle.class_verify.specs.declared.kinds.Kind.{Kind};
ghost use Rattle.class_verify.specs.Frames.{frame_at};
ghost use Rattle.class_verify.specs.Ready.{IsReady, plain};
ghost use Rattle.class_verify.specs.Sweeps.{goes_on, begins_by, is_kept, Swept, IsMet, IsSettled, IsFresh};
ghost use Rattle.class_verify.specs.Targets.{is_caught, catches};

use crate::body::Body;
use crate::locals::Locals;
use class_model::Handler;
use jvm_tables::ValueKind;
use sqlite_items::at;
use std::alloc::{AllocError, Global};

#[derive(Drop)]
pub(crate) struct Sweep {
    /// The ranges, by their starts.
    pub ranges: Vec<Handler>,
    /// How many of them began.
    pub begun: usize,
    /// Those that began and may not have ended.
    pub going: Vec<Handler>,
    /// Whether the locals are those that the handlers of all that are going on accept.
    pub is_settled: bool,
    /// Locals that the handlers of all that are going on accept, as all locals do that fit them.
    pub known: Locals,
    /// The local that was written last.
    pub written: usize,
}

/// Keeps known locals that a further handler accepts too, and makes them those that it accepts otherwise.
fn keep_known(
    body: &Body<'_>,
    handler: usize,
    locals: &Locals,
    known: &mut Locals,
) -> Result<(), AllocError>
    requires ready { IsReady body.now }
    requires caught { is_caught locals.now (frame_at body.now.code.now body.now.frames handler) ≡ true }
    ensures caught { OnOk result (is_caught known.new (frame_at body.now.code.now body.now.frames handler) ≡ true) }
    ensures either { OnOk result ((p : List Kind → Bool) → p known.old ≡ true → p locals.now ≡ true → p known.new ≡ true) }
{
    if body.is_caught(known, handler) {
        return Ok(());
    }
    known.copy_from(locals)?;
    Ok(())
}

impl Sweep {
    pub fn new(alloc: Global, table: &[Handler]) -> Result<Sweep, AllocError>
        ensures { IfOk result (λ sweep. IsFresh table.now sweep) }
    {
        let mut ranges = Vec::from_slice(alloc, table)?;
        ranges.sort_by_key(|range| range.start)?;
        Ok(Sweep {
            ranges,
            begun: 0,
            going: Vec::new(alloc),
            is_settled: true,
            known: Locals::new(alloc),
            written: 0,
        })
    }

    /// The next range, if it begins by a pc.
    fn next_by(&self, pc: usize) -> Option<Handler>
        ensures { result ≡ begins_by pc (slice_get self.now.ranges.items self.now.begun) }
    {
        match at(self.ranges.as_slice(), self.begun) {
            Some(range) => {
                if usize::from(range.start) <= pc {
                    Some(*range)
                } else {
                    None
                }
            }
            None => None,
        }
    }

    /// Whether the handlers of all that are going on accept the locals.
    fn all_keep(&self, body: &Body<'_>, pc: usize, locals: &Locals) -> bool
        requires { IsReady body.now }
        ensures { result ≡ list_all (is_kept body.now.code.now body.now.frames pc locals.now) self.now.going.items }
    {
        self.going
            .iter()
            .all(|range| body.is_kept(pc, locals, range))
    }

    /// Forgets the ranges that ended by a pc.
    fn prune(&mut self, pc: usize)
        ensures going { self.new.going.items ≡ filter (goes_on pc) self.old.going.items }
        ensures ranges { self.new.ranges ≡ self.old.ranges }
        ensures begun { self.new.begun ≡ self.old.begun }
    {
        self.going.retain(|range| pc < usize::from(range.end));
    }

    /// Looks at all that are going on, whether their handlers accept the locals. Those that ended are looked at no more.
    fn look(&mut self, body: &Body<'_>, pc: usize, locals: &Locals) -> Result<bool, AllocError>
        requires ready { IsReady body.now }
        requires swept { Swept (plain body.now) self.old pc }
        ensures { IfOk result (λ is_kept. MatchBool is_kept (IsSettled (plain body.now) self.new pc locals.now)
            (list_all (catches body.now.code.now body.now.frames pc locals.now) body.now.table.now ≡ false)) }
    {
        self.prune(pc);
        self.known.weaken_at(self.written, locals)?;
        if locals.fits(&self.known) && self.all_keep(body, pc, &self.known) {
            return Ok(true);
        }
        self.known.copy_from(locals)?;
        Ok(self.all_keep(body, pc, locals))
    }

    /// Whether the handlers of all that are going on accept the locals, which were changed unless they are settled.
    #[tactic(auto, using(crate::proofs::Sweeping::settled_still, crate::proofs::Sweeping::settled_nothing))]
    fn settle(&mut self, body: &Body<'_>, pc: usize, locals: &Locals) -> Result<bool, AllocError>
        requires ready { IsReady body.now }
        requires met { IsMet (plain body.now) self.old pc locals.now }
        ensures { IfOk result (λ is_kept. MatchBool is_kept (IsSettled (plain body.now) self.new pc locals.now)
            (list_all (catches body.now.code.now body.now.frames pc locals.now) body.now.table.now ≡ false)) }
    {
        if self.is_settled {
            return Ok(true);
        }
        if self.going.as_slice().is_empty() {
            return Ok(true);
        }
        if locals.fits(&self.known) {
            return Ok(true);
        }
        self.look(body, pc, locals)
    }

    /// Goes on to a range that begins, if its handler accepts the locals.
    #[tactic(auto, using(crate::proofs::Sweeping::passed_over))]
    fn admit(
        &mut self,
        body: &Body<'_>,
        pc: usize,
        locals: &Locals,
        range: Handler,
    ) -> Result<bool, AllocError>
        requires ready { IsReady body.now }
        requires next { begins_by pc (slice_get self.old.ranges.items self.old.begun) ≡ Some range }
        requires met { IsSettled (plain body.now) self.old pc locals.now }
        ensures met { IfOk result (λ is_caught. MatchBool is_caught (IsSettled (plain body.now) self.new pc locals.now)
            (list_all (catches body.now.code.now body.now.frames pc locals.now) body.now.table.now ≡ false)) }
        ensures next { IfOk result (λ is_caught. OnTrue is_caught (self.new.begun ≡ self.old.begun + 1)) }
        ensures same { self.new.ranges ≡ self.old.ranges }
    {
        self.begun += 1;
        if pc >= usize::from(range.end) {
            return Ok(true);
        }
        if !body.is_caught(locals, usize::from(range.handler)) {
            return Ok(false);
        }
        keep_known(body, usize::from(range.handler), locals, &mut self.known)?;
        self.going.push(range)?;
        Ok(true)
    }

    /// Goes on to the ranges that begin by a pc, if their handlers accept the locals.
    fn begin(&mut self, body: &Body<'_>, pc: usize, locals: &Locals) -> Result<bool, AllocError>
        requires ready { IsReady body.now }
        requires met { IsSettled (plain body.now) self.old pc locals.now }
        ensures caught { IfOk result (λ is_caught. is_caught ≡ list_all (catches body.now.code.now body.now.frames pc locals.now) body.now.table.now) }
        ensures met { IfOk result (λ is_caught. OnTrue is_caught (IsSettled (plain body.now) self.new pc locals.now)) }
    {
        while let Some(range) = self.next_by(pc) {
            if !self.admit(body, pc, locals, range)? {
                return Ok(false);
            }
        }
        Ok(true)
    }

    /// Whether each handler whose range has the pc accepts the locals.
    pub fn all_catch(
        &mut self,
        body: &Body<'_>,
        pc: usize,
        locals: &Locals,
    ) -> Result<bool, AllocError>
        requires ready { IsReady body.now }
        requires met { IsMet (plain body.now) self.old pc locals.now }
        ensures caught { IfOk result (λ is_caught. is_caught ≡ list_all (catches body.now.code.now body.now.frames pc locals.now) body.now.table.now) }
        ensures met { IfOk result (λ is_caught. OnTrue is_caught (IsSettled (plain body.now) self.new pc locals.now)) }
    {
        if !self.settle(body, pc, locals)? {
            return Ok(false);
        }
        self.begin(body, pc, locals)
    }

    /// Says whether the locals stay as they were found, behind an instruction that may write one at a place.
    pub fn follow(&mut self, writes: Option<ValueKind>, place: usize)
        ensures { self.new ≡ record self.old { is_settled = is_none writes; written = place } }
    {
        self.is_settled = writes.is_none();
        self.written = place;
    }
}
