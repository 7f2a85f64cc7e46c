//! What holds of subtyping, resolution and selection.

ghost use Rattle.std.specs.Prelude.{◌≡◌, ℕ, List, Some, IsSome, slice_get};
ghost use Rattle.class_model.specs.declared.identifiers.ClassId.{ClassId};
ghost use Rattle.class_model.specs.declared.identifiers.MemberId.{MemberId};
ghost use Rattle.class_index.specs.declared.outline.Outline.{Outline};
ghost use Rattle.class_index.specs.declared.select.Selected.TheVariants as selected;
ghost use Rattle.class_model.specs.declared.identifiers.ClassId.TheVariants.{Outer};
ghost use Rattle.jvm_tables.specs.Externals.{External, externals};
ghost use Rattle.class_index.specs.Apart.{HasNoExternal};
ghost use Rattle.class_index.specs.Declarations.{IsMethodId};
ghost use Rattle.class_index.specs.Facts.{class_named};
ghost use Rattle.jvm_tables.specs.Callbacks.{called_back};
ghost use Rattle.jvm_tables.specs.declared.natives.Callback.{Callback};
ghost use Rattle.class_index.specs.Hierarchy.{IsClassId};
ghost use Rattle.class_index.specs.Inherited.{IsInheritedField, IsInheritedMethod, IsSelection};
ghost use Rattle.class_index.specs.Resolution.{resolve_field, resolve_method};
ghost use Rattle.class_index.specs.Selection.{select};
ghost use Rattle.class_index.specs.Subtyping.{IsSubtype};

/// Each class is a subtype of itself.
pub fn subtyping_is_reflexive()
    ensures { (classes : List Outline) (class : ClassId) → IsSubtype classes class class }
{}

/// A subtype of a subtype is a subtype.
pub fn subtyping_is_transitive()
    ensures { (classes : List Outline) (low middle high : ClassId) → IsSubtype classes low middle → IsSubtype classes middle high → IsSubtype classes low high }
{}

/// A method that is there stands in a class that is there.
pub fn methods_stand_in_classes()
    ensures { (classes : List Outline) (id : MemberId) → IsMethodId classes id → IsClassId classes id.class }
{}

/// A field that is found has the name and descriptor of the reference, and is one of its owner or of one of the owner's
/// supers or superinterfaces.
pub fn resolved_fields_are_inherited()
    ensures { (classes : List Outline) (owner name descriptor : List ℕ) (id : MemberId) → resolve_field classes owner name descriptor ≡ Some id → IsInheritedField classes owner name descriptor id }
{}

/// A method that is found has the name and descriptor of the reference, and is one of its owner or of one of the
/// owner's supers or superinterfaces, where an array class has the methods of Object.
pub fn resolved_methods_are_inherited()
    ensures { (classes : List Outline) (owner name descriptor : List ℕ) (id : MemberId) → resolve_method classes owner name descriptor ≡ Some id → IsInheritedMethod classes owner name descriptor id }
{}

/// A method that is selected is the resolved one, which is private or one of arrays alone, or it has its name and descriptor, is one of the
/// receiver or of one of the receiver's supers or superinterfaces, and is neither private nor static nor abstract.
pub fn selected_methods_override()
    ensures { (classes : List Outline) (resolved id : MemberId) (receiver : ClassId) → select classes resolved receiver ≡ selected.Found id → IsSelection classes resolved receiver id }
{}

/// Where no class of the program has the name of an external one, each external name is that of its row.
pub fn external_names_are_rows()
    ensures { (classes : List Outline) (row : ℕ) (r : External) → HasNoExternal classes → slice_get externals row ≡ Some r → class_named classes r.class ≡ Some (Outer row) }
{}

/// Where no class of the program has the name of an external one, each method that a native calls back resolves.
pub fn callbacks_resolve()
    ensures { (classes : List Outline) (callback : Callback) → HasNoExternal classes → IsSome (resolve_method classes (called_back callback).class (called_back callback).name (called_back callback).descriptor) }
{}
