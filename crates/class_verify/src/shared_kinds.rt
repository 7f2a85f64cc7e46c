//! Kinds of which the first are shared with others: a copy takes little memory, however many they are.

ghost use Rattle.std.specs.Prelude.{◌≡◌, ◌≤◌, ◌<◌, ◌++◌, ◌∷◌, [], List, length, take, drop, slice_get, slice_set, IfOk, OnOk};
ghost use Rattle.std.specs.List.{list_all};
ghost use Rattle.class_verify.specs.Kinds.{is_top};
ghost use Rattle.class_verify.specs.SharedKinds.{shared_items, kept_fit};

use crate::kinds::{Kind, all_fit};
use sqlite_items::at;
use std::alloc::{AllocError, Global};
use std::marker::Model;
use std::rc::RcSlice;

/// So many own kinds are copied with a copy; more of them are shared first.
const MOST_OWN: usize = 512;

/// A list of kinds: the first of those that are shared, and its own behind them.
#[derive(Debug, Drop)]
pub(crate) struct SharedKinds {
    shared: Option<RcSlice<Kind>>,
    /// How many of the shared ones it begins with.
    first: usize,
    own: Vec<Kind>,
}

impl Model for SharedKinds {
    ghost use Rattle.std.specs.Prelude.{List, take, ◌++◌};
    ghost use Rattle.std.specs.Coded.{coded_list};
    ghost use Rattle.class_verify.specs.declared.kinds.Kind.{Kind};
    ghost use Rattle.class_verify.specs.contracts.kinds.Kind as kind_type;
    ghost use Rattle.class_verify.specs.SharedKinds.{shared_items};

    ghost Value = { List Kind };

    ghost coded = { coded_list kind_type.the_row.coded };

    ghost view = { λ s. take s.first (shared_items s.shared) ++ s.own.items };
}

fn items_of(shared: &Option<RcSlice<Kind>>) -> &[Kind]
    ensures { result.now ≡ shared_items shared.now }
{
    match shared {
        Some(items) => items.as_slice(),
        None => &[],
    }
}

/// The first of shared kinds.
fn first_of(shared: &Option<RcSlice<Kind>>, first: usize) -> &[Kind]
    ensures { result.now ≡ take first (shared_items shared.now) }
{
    let items = items_of(shared);
    &items[..first.min(items.len())]
}

/// Another owner of shared kinds.
fn also(shared: &Option<RcSlice<Kind>>) -> Result<Option<RcSlice<Kind>>, AllocError>
    ensures { IfOk result (λ other. shared_items other ≡ shared_items shared.now) }
{
    match shared {
        Some(items) => Ok(Some(items.clone()?)),
        None => Ok(None),
    }
}

/// Kinds and those behind them as one list.
fn joined(alloc: Global, kinds: &[Kind], others: &[Kind]) -> Result<Vec<Kind>, AllocError>
    ensures { IfOk result (λ all. all.items ≡ kinds.now ++ others.now) }
{
    let mut all = Vec::from_slice(alloc, kinds)?;
    all.extend_from_slice(others)?;
    Ok(all)
}

/// Whether all are Top; like a comparison without an early end.
#[tactic(auto, using(std::proofs::lemmas::List::Folds::list_all_more, std::proofs::lemmas::List::take_all))]
fn all_top(kinds: &[Kind]) -> bool
    ensures { result ≡ list_all is_top kinds.now }
{
    let mut top = true;
    for kind in kinds {
        top = top & kind.is(Kind::Top);
    }
    top
}

/// Whether kinds fit others as far as both go, and the others behind them are Top.
fn kept_fit(kinds: &[Kind], others: &[Kind]) -> bool
    ensures { result ≡ kept_fit kinds.now others.now }
{
    let common = kinds.len().min(others.len());
    all_fit(&kinds[..common], &others[..common]) & all_top(&others[common..])
}

/// The same where the others are two lists.
fn fit_both(kinds: &[Kind], others: &[Kind], more: &[Kind]) -> bool
    ensures { result ≡ kept_fit kinds.now (others.now ++ more.now) }
{
    let common = kinds.len().min(others.len());
    kept_fit(&kinds[..common], others) & kept_fit(&kinds[common..], more)
}

/// The same where the kinds are two lists.
fn both_fit(kinds: &[Kind], more: &[Kind], others: &[Kind]) -> bool
    ensures { result ≡ kept_fit (kinds.now ++ more.now) others.now }
{
    let common = kinds.len().min(others.len());
    kept_fit(kinds, &others[..common]) & kept_fit(more, &others[common..])
}

fn fewer_fit(kinds: &[Kind], own: &[Kind], others: &[Kind], of_others: &[Kind]) -> bool
    requires { length kinds.now ≤ length others.now }
    ensures { result ≡ kept_fit (kinds.now ++ own.now) (others.now ++ of_others.now) }
{
    let count = kinds.len();
    kept_fit(kinds, &others[..count]) & fit_both(own, &others[count..], of_others)
}

fn more_fit(kinds: &[Kind], own: &[Kind], others: &[Kind], of_others: &[Kind]) -> bool
    requires { length others.now ≤ length kinds.now }
    ensures { result ≡ kept_fit (kinds.now ++ own.now) (others.now ++ of_others.now) }
{
    let count = others.len();
    kept_fit(&kinds[..count], others) & both_fit(&kinds[count..], own, of_others)
}

impl SharedKinds {
    /// Kinds that it alone owns.
    pub(crate) fn of(own: Vec<Kind>) -> SharedKinds
        ensures { result ≡ own.items }
    {
        SharedKinds {
            shared: None,
            first: 0,
            own,
        }
    }

    pub(crate) fn len(&self) -> usize
        ensures { result ≡ length self.now }
    {
        first_of(&self.shared, self.first).len() + self.own.len()
    }

    #[tactic(auto, using(crate::proofs::Sharing::get_first, crate::proofs::Sharing::get_behind))]
    pub(crate) fn get(&self, place: usize) -> Option<Kind>
        ensures { result ≡ slice_get self.now place }
    {
        let first = first_of(&self.shared, self.first);
        if place < first.len() {
            return Some(first[place]);
        }
        match at(self.own.as_slice(), place - first.len()) {
            Some(kind) => Some(*kind),
            None => None,
        }
    }

    pub(crate) fn push(&mut self, kind: Kind) -> Result<(), AllocError>
        ensures { OnOk result (self.new ≡ self.old ++ kind ∷ []) }
    {
        self.own.push(kind)?;
        Ok(())
    }

    /// Writes the kind at a place. Those that are shared from there on become its own first.
    #[tactic(auto, using(crate::proofs::Sharing::set_own, crate::proofs::Sharing::set_behind))]
    pub(crate) fn set(&mut self, place: usize, kind: Kind) -> Result<(), AllocError>
        requires { place < length self.old }
        ensures { OnOk result (self.new ≡ slice_set self.old place kind) }
    {
        let first = first_of(&self.shared, self.first);
        let count = first.len();
        if place >= count {
            self.own[place - count] = kind;
            return Ok(());
        }
        let mut own = joined(*self.own.allocator(), &first[place..], self.own.as_slice())?;
        own[0] = kind;
        self.own = own;
        self.first = place;
        Ok(())
    }

    /// Leaves the first of them.
    #[tactic(auto, using(crate::proofs::Sharing::cut_shared, crate::proofs::Sharing::cut_own))]
    pub(crate) fn truncate(&mut self, most: usize)
        ensures { self.new ≡ take most self.old }
    {
        let count = first_of(&self.shared, self.first).len();
        if most <= count {
            self.first = most;
            self.own.clear();
        } else {
            self.own.truncate(most - count);
        }
    }

    /// Makes them equal to others, with which the first are shared.
    pub(crate) fn copy_from(&mut self, other: &SharedKinds) -> Result<(), AllocError>
        ensures { OnOk result (self.new ≡ other.now) }
    {
        self.shared = also(&other.shared)?;
        self.first = other.first;
        self.own.clear();
        self.own.extend_from_slice(other.own.as_slice())
    }

    /// Shares its own, if they are many.
    #[tactic(auto, using(crate::proofs::Sharing::shared_all))]
    fn share(&mut self) -> Result<(), AllocError>
        ensures { OnOk result (self.new ≡ self.old) }
    {
        if self.own.len() <= MOST_OWN {
            return Ok(());
        }
        let first = first_of(&self.shared, self.first);
        let all = joined(*self.own.allocator(), first, self.own.as_slice())?;
        self.first = all.len();
        self.shared = Some(RcSlice::from_vec(all)?);
        self.own.clear();
        Ok(())
    }

    /// A copy of which most are shared.
    pub(crate) fn copied(&mut self) -> Result<SharedKinds, AllocError>
        ensures copy { IfOk result (λ copy. copy ≡ self.old) }
        ensures same { OnOk result (self.new ≡ self.old) }
    {
        self.share()?;
        let mut copy = SharedKinds::of(Vec::new(*self.own.allocator()));
        copy.copy_from(self)?;
        Ok(copy)
    }

    /// Whether they fit others as far as both go, and the others behind them are Top.
    pub(crate) fn kept_fit(&self, others: &SharedKinds) -> bool
        ensures { result ≡ kept_fit self.now others.now }
    {
        let first = first_of(&self.shared, self.first);
        let wanted = first_of(&others.shared, others.first);
        if first.len() <= wanted.len() {
            fewer_fit(first, self.own.as_slice(), wanted, others.own.as_slice())
        } else {
            more_fit(first, self.own.as_slice(), wanted, others.own.as_slice())
        }
    }
}
