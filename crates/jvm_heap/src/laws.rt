//! Laws of the heap's definitions. They have no bodies: each is its contract.

ghost use Rattle.jvm_heap.specs.Renaming.{ObjectsRenamed, HeapsRenamed};

/// Renaming classes and sites passes by all that is done with objects and heaps. `C` and `S` tell classes and sites
/// before, and `D` and `T` after.
pub fn renaming_passes_by<C, D, S, T>()
    ensures objects { (f : C → D) (g : S → T) → ObjectsRenamed f g }
    ensures heaps { (f : C → D) (g : S → T) → HeapsRenamed f g }
{}
