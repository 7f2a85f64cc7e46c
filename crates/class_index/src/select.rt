//! Selection of methods (JVMS 5.4.6).

ghost use Rattle.std.specs.Prelude.{◌≡◌, ◌<◌, ◌^◌, ℕ, All, List, length, Some};
ghost use Rattle.place_graph.specs.Graphs.{AreWithin, edges_of};
ghost use Rattle.class_index.specs.Members.{HasFewMembers};
ghost use Rattle.class_index.specs.Lookups.{AreSupers};
ghost use Rattle.class_index.specs.Selection.{unless_abstract, the_only, overriding};

use crate::index::Index;
use crate::lookup::{Choice, Found, most_specific, nearest};
use crate::members::{MethodView, Wanted, outer_view, own_view};
use crate::outline::Outline;
use crate::resolve::member_of;
use class_model::{ClassId, MemberId};
use place_graph::Places;

/// What a call of a resolved method runs for a receiver.
#[derive(Clone, Copy, Debug, PartialEq, Eq, Drop)]
pub enum Selected {
    Found(MemberId),
    /// The method that is looked up is abstract, or there is none.
    Abstract,
    /// Several of the maximally-specific superinterface methods aren't abstract.
    Tie,
}

/// A method that was looked up in a class, unless it is abstract.
fn unless_abstract(own: usize, found: Found) -> Selected
    ensures { result ≡ unless_abstract own found }
{
    if found.method.is_abstract {
        Selected::Abstract
    } else {
        Selected::Found(member_of(own, found.place, found.method.at))
    }
}

fn the_only(own: usize, choice: Choice) -> Selected
    ensures { result ≡ the_only own choice }
{
    match choice {
        Choice::Nothing => Selected::Abstract,
        Choice::One(found) => Selected::Found(member_of(own, found.place, found.method.at)),
        Choice::Many => Selected::Tie,
    }
}

/// What overrides the method of a name and descriptor for the class at a place.
fn overriding(
    own: usize,
    all: &[Outline],
    supers: &[Option<u32>],
    above: &[Places],
    name: &[u8],
    descriptor: &[u8],
    place: usize,
) -> Selected
    requires members { All HasFewMembers all.now }
    requires few { length all.now < 2 ^ 32 }
    requires place { place < length all.now }
    requires same { length supers.now ≡ length all.now }
    requires supers { AreSupers (length all.now) supers.now }
    requires rows { length above.now ≡ length all.now }
    requires above { AreWithin (length all.now) (edges_of above.now place) }
    ensures { result ≡ overriding own all.now supers.now (edges_of above.now) name.now descriptor.now place }
{
    match nearest(
        own,
        all,
        supers,
        name,
        descriptor,
        Wanted::Overriding,
        place,
    ) {
        Some(found) => unless_abstract(own, found),
        None => the_only(
            own,
            most_specific(own, all, above, name, descriptor, above[place].as_slice()),
        ),
    }
}

impl Index {
    ghost use Rattle.class_index.specs.Hierarchy.{IsClassId, all_of, supers, place};
    ghost use Rattle.class_index.specs.Resolution.{above};
    ghost use Rattle.class_index.specs.Declarations.{IsMethodId, method_at, said};
    ghost use Rattle.class_index.specs.Selection.{select};

    /// The method that a number names.
    pub fn method(&self, id: MemberId) -> MethodView<'_>
        requires { IsMethodId self.now id }
        ensures { Some (said result) ≡ method_at self.now id }
    {
        match id.class {
            ClassId::Own(class) => own_view(&self.outlines()[class as usize], id.at),
            ClassId::Outer(row) => outer_view(row, id.at),
        }
    }

    /// What overrides the method of a name and descriptor for a receiver of a class.
    fn override_for(&self, name: &[u8], descriptor: &[u8], receiver: ClassId) -> Selected
        requires { IsClassId self.now receiver }
        ensures { result ≡ overriding (length self.now) (all_of self.now) (supers (all_of self.now)) (above (all_of self.now)) name.now descriptor.now (place self.now receiver) }
    {
        let all = self.outlines();
        let supers = self.superclasses();
        let rows = self.rows();
        overriding(
            self.own(),
            all,
            supers,
            rows,
            name,
            descriptor,
            self.place(receiver),
        )
    }

    /// The method that a call of a resolved method runs for a receiver of a class (JVMS 5.4.6): the resolved one where
    /// it is private or one of arrays alone, as `clone`, else the nearest along the receiver's class and its superclasses that is neither private nor
    /// static, else the one superinterface method that is maximally specific and isn't abstract. A resolved method
    /// that is static is for the caller to refuse: for it too what would override it is answered. An array has the
    /// receiver class `java/lang/Object`.
    pub fn select(&self, resolved: MemberId, receiver: ClassId) -> Selected
        requires resolved { IsMethodId self.now resolved }
        requires receiver { IsClassId self.now receiver }
        ensures { result ≡ select self.now resolved receiver }
    {
        let method = self.method(resolved);
        if method.method.is_private || method.method.is_of_arrays {
            return Selected::Found(resolved);
        }
        self.override_for(method.name, method.descriptor, receiver)
    }
}
