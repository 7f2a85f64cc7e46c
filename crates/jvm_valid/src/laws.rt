//! Laws of valid states. They have no bodies: each is its contract.

ghost use Rattle.jvm_valid.specs.Laws.{EachCallBegins, EachBodyBegins};

/// A method that is called on values of its kinds, above frames that wait for what it gives, begins in a valid state,
/// or there is no room for its frame. The body of a task, whose arguments fit and are placed, begins in a valid state.
pub fn calls_begin_validly()
    ensures calls { EachCallBegins }
    ensures bodies { EachBodyBegins }
{}
