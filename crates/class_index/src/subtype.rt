//! Names of classes, and subtyping (JVMS 4.10 and 6.5, checkcast).

ghost use Rattle.std.specs.Prelude.{◌≡◌, ◌↔◌, ◌<◌, ◌≤◌, ◌^◌, ℕ, List, IsTrue, length};
ghost use Rattle.place_graph.specs.Graphs.{is_among};

use crate::index::Index;
use class_model::ClassId;
use jvm_tables::external_at;

pub(crate) fn contains(places: &[u32], place: usize) -> bool
    ensures { result ≡ is_among place places.now }
{
    for other in places {
        if *other as usize == place {
            return true;
        }
    }
    false
}

impl Index {
    ghost use Rattle.class_index.specs.Hierarchy.{IsClassId, place};
    ghost use Rattle.class_index.specs.Subtyping.{IsSubtype, class_name};
    ghost use Rattle.class_index.specs.Below.{is_subtype};

    /// The place of a class among all.
    pub(crate) fn place(&self, class: ClassId) -> usize
        requires { IsClassId self.now class }
        ensures { result ≡ place self.now class }
    {
        match class {
            ClassId::Own(at) => at as usize,
            ClassId::Outer(row) => self.own + row as usize,
        }
    }

    /// Whether a class is another, or below it by supers and superinterfaces. Arrays are no classes here.
    pub fn is_subtype(&self, low: ClassId, high: ClassId) -> bool
        requires low { IsClassId self.now low }
        requires high { IsClassId self.now high }
        ensures value { result ≡ is_subtype self.now low high }
        ensures means { IsTrue result ↔ IsSubtype self.now low high }
    {
        let low = self.place(low);
        let high = self.place(high);
        if low == high {
            return true;
        }
        let above = self.above.as_slice();
        contains(above[low].as_slice(), high)
    }

    /// The name of a class, with slashes.
    pub fn class_name(&self, class: ClassId) -> &[u8]
        requires { IsClassId self.now class }
        ensures { result.now ≡ class_name self.now class }
    {
        let place = self.place(class);
        self.all.as_slice()[place].name.as_slice()
    }
}
