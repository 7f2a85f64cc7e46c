//! The kinds of slots.

ghost use Rattle.std.specs.Prelude.{◌≡◌, length};
ghost use Rattle.class_verify.specs.Kinds.{is_kind, is_single, is_pair, fits, all_fit};

/// The kind of a local or of a slot of the operand stack (JVMS 4.10.1.2). A long fills two: `Long`, and `Top` behind
/// it. Null and the uninitialised types are references.
#[derive(Clone, Copy, Debug, PartialEq, Eq, Drop)]
pub enum Kind {
    Top,
    Int,
    Long,
    Reference,
}

impl Kind {
    pub(crate) fn is(self, wanted: Kind) -> bool
        ensures { result ≡ is_kind wanted self }
    {
        match wanted {
            Kind::Top => matches!(self, Kind::Top),
            Kind::Int => matches!(self, Kind::Int),
            Kind::Long => matches!(self, Kind::Long),
            Kind::Reference => matches!(self, Kind::Reference),
        }
    }

    /// Whether it is the kind of a whole value in one slot.
    pub(crate) fn is_single(self) -> bool
        ensures { result ≡ is_single self }
    {
        matches!(self, Kind::Int | Kind::Reference)
    }

    /// Whether slots are two values of one slot each, or a long, this one being the top.
    pub(crate) fn is_pair(self, next: Kind) -> bool
        ensures { result ≡ is_pair self next }
    {
        self.is_single() && next.is_single() || self.is(Kind::Top) && next.is(Kind::Long)
    }

    /// Whether a slot of this kind may stand where another is wanted.
    pub(crate) fn fits(self, wanted: Kind) -> bool
        ensures { result ≡ fits self wanted }
    {
        matches!(wanted, Kind::Top) | (self == wanted)
    }
}

/// Whether as many kinds fit, each the one at its place. All are compared, also behind one that doesn't fit: a loop
/// without an early end compares many at once.
#[tactic(auto, using(crate::proofs::Fitting::fit_step, crate::proofs::Fitting::fit_end, crate::proofs::Fitting::fit_lengths))]
pub(crate) fn all_fit(kinds: &[Kind], wanted: &[Kind]) -> bool
    ensures { result ≡ all_fit kinds.now wanted.now }
{
    if kinds.len() != wanted.len() {
        return false;
    }
    let mut fit = true;
    for at in 0..kinds.len() {
        fit = fit & kinds[at].fits(wanted[at]);
    }
    fit
}
