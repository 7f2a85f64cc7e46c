//! Changing objects.

ghost use Rattle.std.specs.Prelude.{◌≡◌, Some, length};
ghost use Rattle.jvm_heap.specs.Changes.{CanChange, changed, enlarged, Enlarges};
ghost use Rattle.jvm_heap.specs.Changes.{with_last, with_units, with_element, with_next, with_message, with_name};

use crate::fault::HeapFault;
use crate::heap::Heap;

impl Heap {
    /// Puts an element at the end of a list.
    pub fn add(&mut self, list: u32, element: u32) -> Result<(), HeapFault>
        requires { CanChange (with_last element) list self.old }
        ensures { Enlarges (enlarged (with_last element) list 1 self.old) result self.old self.new }
    {
        if !self.has_room(1) {
            return Err(HeapFault::Full);
        }
        let at = self.place(list);
        match self.objects[at].add(element) {
            Ok(()) => {
                self.cells += 1;
                Ok(())
            }
            Err(_) => Err(HeapFault::Memory),
        }
    }

    /// Puts units behind those of a builder.
    pub fn append(&mut self, builder: u32, units: &[u16]) -> Result<(), HeapFault>
        requires { CanChange (with_units units.now) builder self.old }
        ensures { Enlarges (enlarged (with_units units.now) builder (length units.now) self.old)
            result self.old self.new }
    {
        let more = units.len() as u64;
        if !self.has_room(more) {
            return Err(HeapFault::Full);
        }
        let at = self.place(builder);
        match self.objects[at].append(units) {
            Ok(()) => {
                self.cells += more;
                Ok(())
            }
            Err(_) => Err(HeapFault::Memory),
        }
    }

    /// Writes an element of a list. It takes no memory, nor do the calls below.
    pub fn set_element(&mut self, list: u32, place: u32, element: u32)
        requires { CanChange (with_element place element) list self.old }
        ensures { changed (with_element place element) list self.old ≡ Some self.new }
    {
        let at = self.place(list);
        self.objects[at].set_element(place as usize, element);
    }

    /// Puts an iterator before the element at a place.
    pub fn set_next(&mut self, iterator: u32, next: u32)
        requires { CanChange (with_next next) iterator self.old }
        ensures { changed (with_next next) iterator self.old ≡ Some self.new }
    {
        let at = self.place(iterator);
        self.objects[at].set_next(next);
    }

    /// Gives a throwable its message and its cause.
    pub fn set_message(&mut self, throwable: u32, message: u32, cause: u32)
        requires { CanChange (with_message message cause) throwable self.old }
        ensures { changed (with_message message cause) throwable self.old ≡ Some self.new }
    {
        let at = self.place(throwable);
        self.objects[at].set_message(message, cause);
    }

    /// Gives an enum its name and its ordinal.
    pub fn set_name(&mut self, enumerated: u32, name: u32, ordinal: i32)
        requires { CanChange (with_name name ordinal) enumerated self.old }
        ensures { changed (with_name name ordinal) enumerated self.old ≡ Some self.new }
    {
        let at = self.place(enumerated);
        self.objects[at].set_name(name, ordinal);
    }
}
