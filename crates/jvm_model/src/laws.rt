//! Laws of the machine's definition. They have no bodies: each is its contract.

ghost use Rattle.jvm_model.specs.Runs.{AlikeRunsAreEqual, RunsGoNoFurther};

/// What a program doesn't tell by its answers has no effect: two programs that answer alike what a run asks have the
/// same run.
pub fn runs_that_ask_alike_are_equal()
    ensures { AlikeRunsAreEqual }
{}

/// A run that ends within a budget ends so within every greater one.
pub fn runs_go_no_further()
    ensures { RunsGoNoFurther }
{}
