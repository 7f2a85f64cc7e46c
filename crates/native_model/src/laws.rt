//! Laws of natives. They have no bodies: each is its contract.

ghost use Rattle.std.specs.Prelude.{◌≡◌, map};
ghost use Rattle.jvm_tables.specs.Natives.{natives};
ghost use Rattle.native_model.specs.Stated.{stated_kinds};
ghost use Rattle.native_model.specs.Table.{cases};

/// Each native takes its receiver, where it has one, and what its descriptor says, by kind and in that order.
pub fn natives_take_what_is_stated()
    ensures { map (λ case. case.kinds) cases ≡ map stated_kinds natives }
{}
