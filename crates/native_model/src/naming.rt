//! How classes and sites are told by name.

ghost use Rattle.std.specs.Prelude.{◌≡◌, ℕ, List};
ghost use Rattle.class_model.specs.declared.identifiers.ClassId.{ClassId};
ghost use Rattle.class_model.specs.declared.identifiers.SiteId.{SiteId};
ghost use Rattle.native_model.specs.Worlds.{Origin};
ghost use Rattle.native_model.specs.Lists.{fixed_list};

use class_model::ClassId;

/// The names of the classes and sites that a heap tells by place.
pub trait Naming {
    ghost class_name: { Self → ClassId → List ℕ };

    ghost site_origin: { Self → SiteId → Origin };

    /// The name of a class.
    fn name_of(&self, class: ClassId) -> &[u8]
        ensures { result.now ≡ class_name self.now class };

    /// The class of lists that can't change.
    fn fixed_list(&self) -> ClassId
        ensures { class_name self.now result ≡ fixed_list };
}
