//! Which method a call leads to, and what an object may be used as (JVMS 4.10, 5.4.3, 5.4.6, 6.5), by what a program
//! answers to look-ups.
//!
//! It stands on `jvm_model`, whose plans each call here equals at its end, and on the texts of `class_code`. The layers
//! above give a program as an implementation of `Lookups`, and use the equations.
#![tactic(auto)]

mod callee;
mod lookups;
mod stop;
mod types;

pub use callee::{
    Callee, callee_of, checked, if_static, object_of, receiver, resolved, special_callee,
    static_target, virtual_callee,
};
pub use lookups::{Lookups, OriginView, Target};
pub use stop::Stop;
pub use types::{
    array_form_of, class_of, is_assignable, is_instance, is_known, type_named, type_of,
};
