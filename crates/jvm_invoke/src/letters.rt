//! Types by their letters.

ghost use Rattle.std.specs.Prelude.{◌≡◌};
ghost use Rattle.class_model.specs.TypeForms.{type_of};
ghost use Rattle.jvm_invoke.specs.Letters.{primitive_letter};

use class_model::TypeForm;

/// The letter of a primitive type (JVMS 4.3.2).
#[tactic(auto, using(crate::proofs::LetterLemmas::letters_of_forms))]
pub(crate) fn primitive_letter(form: TypeForm<'_>) -> Option<u8>
    ensures { result ≡ primitive_letter (type_of form.entry) }
{
    if form.dimensions == 0 && form.letter != b'L' {
        Some(form.letter)
    } else {
        None
    }
}
