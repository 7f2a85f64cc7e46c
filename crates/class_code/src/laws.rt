//! Laws of the code of methods.

ghost use Rattle.class_code.specs.Laws.{CodeIsWhereToldOf, SoundSitesAreWritten};

/// A method has a Code exactly where it is told to have code.
#[tactic(auto, using(crate::proofs::Codes::code_is_told))]
pub fn code_is_where_told_of()
    ensures { CodeIsWhereToldOf }
{}

/// A site whose parts go together is as the file says it, so that it is found again without memory.
#[tactic(auto, using(crate::proofs::SiteLemmas::site_is_written))]
pub fn sound_sites_are_written()
    ensures { SoundSitesAreWritten }
{}
