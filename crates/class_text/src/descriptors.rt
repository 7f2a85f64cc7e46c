//! The laws that tie descriptors to their spelling.

ghost use Rattle.std.specs.Prelude.{◌≡◌, ◌↔◌, ℕ, List, Some};
ghost use Rattle.class_model.specs.Descriptors.{FieldType, field_type, MethodType, method_type};
ghost use Rattle.class_text.specs.DescriptorText.{type_text, IsFieldType, method_text, IsMethodType};

/// A descriptor has exactly the type that spells it (JVMS 4.3.2, 4.3.3).
pub fn descriptor_laws()
    ensures field { (bytes : List ℕ) (t : FieldType)
        → (field_type bytes ≡ Some t) ↔ (IsFieldType t × (bytes ≡ type_text t)) }
    ensures method { (bytes : List ℕ) (m : MethodType)
        → (method_type bytes ≡ Some m) ↔ (IsMethodType m × (bytes ≡ method_text m)) }
{}
