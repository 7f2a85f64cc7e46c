//! Valid states of the machine, which are those that a run of a verified program is to meet, and that each call of a method
//! and each body begins in one (JVMS 4.10, 2.6). That a step leads from one to another is not proved yet.
//!
//! It stands on `jvm_model`, whose states and steps it speaks of, and on `class_verify`, whose shapes and laws it cites.
//! What runs bodies has validity as the condition of a step.
#![tactic(auto)]

mod laws;

pub use laws::calls_begin_validly;
