//! Which classes are initialised.

ghost use Rattle.std.specs.Prelude.{◌≡◌, ◌∷◌, [], OnOk, OnErr};

use class_model::ClassId;
use std::alloc::{AllocError, Global};
use std::marker::Model;

/// The classes that are initialised, in progress too, each with whether it failed. Contracts see the last one first.
#[derive(Drop)]
pub struct Initialised {
    classes: Vec<(ClassId, bool)>,
}

impl Model for Initialised {
    ghost use Rattle.std.specs.Prelude.{List, Bool, reverse};
    ghost use Rattle.class_model.specs.declared.identifiers.ClassId.{ClassId};

    ghost Value = { List (ClassId × Bool) };

    ghost view = { λ s. reverse s.classes.items };
}

impl Initialised {
    /// No classes.
    pub fn new(alloc: Global) -> Initialised
        ensures { result ≡ [] }
    {
        Initialised {
            classes: Vec::new(alloc),
        }
    }

    /// A class that is in progress, or has failed.
    #[tactic(auto, using(crate::proofs::Stacked::put_last))]
    pub fn add(&mut self, class: ClassId, failed: bool) -> Result<(), AllocError>
        ensures put { OnOk result (self.new ≡ (class, failed) ∷ self.old) }
        ensures kept { OnErr result (self.new ≡ self.old) }
    {
        self.classes.push((class, failed))?;
        Ok(())
    }
}
