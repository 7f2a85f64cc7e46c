//! A program as the machine asks it: the names of its classes, methods and lambda sites, and its answers to look-ups.
//!
//! It stands on `class_index` and `class_code`, and gives `jvm_resolve` its `Lookups`. The layers above run bodies
//! over `Classes`.
#![tactic(auto)]

mod answers;
mod classes;
mod origins;

pub use classes::Classes;
