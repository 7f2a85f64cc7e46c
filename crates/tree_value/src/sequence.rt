ghost use Rattle.std.specs.Prelude.{◌≡◌, ◌↔◌, [], length, IfOk, IsTrue};

use crate::fault::CopyFault;
use std::alloc::Global;
use std::marker::Model;

/// A value of which an equal one can be made, if there is memory.
pub trait TryCopy: Drop + Sized {
    fn try_copy(&self) -> Result<Self, CopyFault>
        ensures { IfOk result (λ copy. copy ≡ self.now) };
}

impl<A: TryCopy, B: TryCopy> TryCopy for (A, B) {
    fn try_copy(&self) -> Result<(A, B), CopyFault> {
        let (first, second) = self;
        Ok((first.try_copy()?, second.try_copy()?))
    }
}

/// A `Vec` that contracts see as the list of its items.
#[derive(Debug, Drop)]
pub struct Sequence<T> {
    items: Vec<T>,
}

impl<T> Model for Sequence<T> {
    ghost use Rattle.std.specs.Prelude.{List};
    ghost use Rattle.std.specs.Coded.{coded_list};

    ghost Value = { List T };

    ghost coded = { coded_list T.code };

    ghost view = { λ sequence. sequence.items.items };
}

impl<T> Sequence<T> {
    pub fn new(alloc: Global) -> Sequence<T>
        ensures { result ≡ [] }
    {
        Sequence {
            items: Vec::new(alloc),
        }
    }

    pub fn from_vec(items: Vec<T>) -> Sequence<T>
        ensures { result ≡ items.items }
    {
        Sequence { items }
    }

    pub fn into_vec(self) -> Vec<T>
        ensures { result.items ≡ self }
    {
        let Sequence { items } = self;
        items
    }

    pub fn as_slice(&self) -> &[T]
        ensures { result.now ≡ self.now }
    {
        self.items.as_slice()
    }

    pub fn len(&self) -> usize
        ensures { result ≡ length self.now }
    {
        self.items.len()
    }

    pub fn is_empty(&self) -> bool
        ensures { IsTrue result ↔ (self.now ≡ []) }
    {
        self.items.is_empty()
    }

    /// The allocator that the items were made with.
    pub(crate) fn allocator(&self) -> Global {
        *self.items.allocator()
    }
}

impl<T: TryCopy> Sequence<T> {
    pub fn copy(&self) -> Result<Sequence<T>, CopyFault>
        ensures { IfOk result (λ copy. copy ≡ self.now) }
    {
        let mut items = Vec::with_capacity(self.allocator(), self.items.len())?;
        for item in &self.items {
            items.push(item.try_copy()?)?;
        }
        Ok(Sequence { items })
    }
}
