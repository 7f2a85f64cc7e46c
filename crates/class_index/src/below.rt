//! What is below a class.

ghost use Rattle.std.specs.Prelude.{◌≡◌, ◌<◌, ◌++◌, OnOk, IfOk, length};
ghost use Rattle.place_graph.specs.Searches.{IsReaching};

use crate::hierarchy::hierarchy_of;
use crate::index::Index;
use class_model::ClassId;
use place_graph::reaching;
use sqlite_items::Items;
use std::alloc::{AllocError, Global};

impl Index {
    ghost use Rattle.class_index.specs.Hierarchy.{IsClassId, all_of, id_of, hierarchy, place};
    ghost use Rattle.class_index.specs.Below.{is_subtype, classes_below, if_below};

    /// Marks the places of the classes that have a class among their supers and superinterfaces.
    fn marks_below(&self, alloc: Global, high: ClassId) -> Result<Vec<bool>, AllocError>
        requires { IsClassId self.now high }
        ensures { IfOk result (λ marks. IsReaching (hierarchy (all_of self.now)) (place self.now high) marks.items) }
    {
        let all = self.outlines();
        let graph = hierarchy_of(alloc, &self.places, all)?;
        let marks = reaching(alloc, graph.as_slice(), self.place(high))?;
        Ok(marks)
    }

    /// Whether the class at a place is another, or below it by the marks.
    fn is_below(&self, marks: &[bool], high: ClassId, at: usize) -> bool
        requires at { at < length (all_of self.now) }
        requires high { IsClassId self.now high }
        requires marks { IsReaching (hierarchy (all_of self.now)) (place self.now high) marks.now }
        ensures { result ≡ is_subtype self.now (id_of (length self.now) at) high }
    {
        let _closed = &self.above;
        if self.place(high) == at {
            return true;
        }
        marks[at]
    }

    /// Adds the class at a place, if it is another or below it.
    fn add_if_below(
        &self,
        found: &mut Items<ClassId>,
        marks: &[bool],
        high: ClassId,
        at: usize,
    ) -> Result<(), AllocError>
        requires at { at < length (all_of self.now) }
        requires high { IsClassId self.now high }
        requires marks { IsReaching (hierarchy (all_of self.now)) (place self.now high) marks.now }
        ensures { OnOk result (found.new ≡ found.old ++ if_below self.now high (id_of (length self.now) at)) }
    {
        if self.is_below(marks, high, at) {
            found.push(self.id(at))?;
        }
        Ok(())
    }

    /// A class and all that have it among their supers and superinterfaces, in the order of the program, then the
    /// external ones in the order of their table. It takes memory and time for each class and each direct super that it
    /// names, which is looked up by its name.
    pub fn classes_below(&self, alloc: Global, high: ClassId) -> Result<Items<ClassId>, AllocError>
        requires { IsClassId self.now high }
        ensures { IfOk result (λ found. found ≡ classes_below self.now high) }
    {
        let marks = self.marks_below(alloc, high)?;
        let mut found = Items::new(alloc);
        for at in 0..self.outlines().len() {
            self.add_if_below(&mut found, marks.as_slice(), high, at)?;
        }
        Ok(found)
    }
}
