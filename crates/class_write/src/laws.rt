//! The law that ties the first part that fails to the shape of a class.

ghost use Rattle.std.specs.Prelude.{◌≡◌, None};
ghost use Rattle.class_model.specs.declared.class_file.Class.{Class};
ghost use Rattle.class_model.specs.Shape.{Shaped};
ghost use Rattle.class_write.specs.Misfits.{misfit};

/// No part of a shaped class fails. The reverse, that a class of which no part fails is shaped, is in the contract of
/// `write_class`, since it takes the types of the numbers too.
pub fn misfit_law()
    ensures { (c : Class) → Shaped c → misfit c ≡ None }
{}
