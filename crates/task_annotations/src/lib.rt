//! What the Task annotations of methods declare. It stands on the classes of `class_model` and on the names and kinds of
//! `task_model`. The layer above, which is to draw the graph of a verified program, uses that `sites_of` gives exactly the
//! methods with a Task annotation, that `limit_passed` tells exactly which limit they pass, and that `declaration_of` gives
//! exactly what a method declares, or that it or its annotation breaks a rule.
#![tactic(auto)]

mod annotations;
mod declaration;
mod declared_kind;
mod elements;
mod signature;
mod sites;
mod spelled;

pub use declaration::{Declaration, declaration_of};
pub use declared_kind::DeclaredKind;
pub use elements::{DEFAULT_BUDGET, GREATEST_BUDGET};
pub use sites::{MAX_INPUTS, MAX_TASKS, Site, limit_passed, sites_of};
