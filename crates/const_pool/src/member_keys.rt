//! Which names and descriptors members have.

use crate::text_numbers::TextNumbers;
use class_model::Pool;
use std::alloc::{AllocError, Global};
use std::collections::BTreeSet;

/// The names and descriptors of members, to find one that comes twice. Each look-up is logarithmic, and goes by numbers
/// of texts, so that a long text isn't compared again for each member that has it.
#[derive(Drop)]
pub struct MemberKeys<'a> {
    numbers: TextNumbers<'a>,
    seen: BTreeSet<(u16, u16)>,
}

impl<'a> MemberKeys<'a> {
    ghost use Rattle.std.specs.Prelude.{◌≡◌, ◌++◌, ◌∷◌, [], List, not, IfOk, OnOk, OnErr};
    ghost use Rattle.std.specs.List.{list_any};
    ghost use Rattle.class_model.specs.declared.constant_pool.Pool.{Pool};
    ghost use Rattle.class_model.specs.declared.class_file.Member.{Member};
    ghost use Rattle.class_model.specs.Shape.{are_same};
    ghost use Rattle.const_pool.specs.SeenMembers.{HasSeen};

    /// The keys of no members.
    pub fn new(alloc: Global) -> MemberKeys<'a>
        ensures { (pool : Pool) → HasSeen pool [] result }
    {
        MemberKeys {
            numbers: TextNumbers::new(alloc),
            seen: BTreeSet::new(alloc),
        }
    }

    /// Enters a name and a descriptor by their indices, and tells whether no member before has both.
    pub fn insert(&mut self, pool: &'a Pool, name: u16, descriptor: u16) -> Result<bool, AllocError>
        ensures added { (before : List Member) (m : Member) → m.name ≡ name
            → m.descriptor ≡ descriptor
            → HasSeen pool.now before self.old
            → IfOk result (λ added. added ≡ not (list_any (are_same pool.now m) before)) }
        ensures seen { (before : List Member) (m : Member) → m.name ≡ name
            → m.descriptor ≡ descriptor
            → HasSeen pool.now before self.old
            → OnOk result (HasSeen pool.now (before ++ m ∷ []) self.new) }
        ensures same { (before : List Member) → HasSeen pool.now before self.old
            → OnErr result (HasSeen pool.now before self.new) }
    {
        let name = self.numbers.number_of(pool, name)?;
        let descriptor = self.numbers.number_of(pool, descriptor)?;
        Ok(self.seen.insert((name, descriptor))?)
    }
}
