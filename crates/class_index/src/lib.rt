//! The hierarchy of a program's classes and the external ones, prepared for questions: names, resolution of fields and
//! methods, selection, subtyping. It stands on `class_model`, `jvm_tables` and `place_graph`. The layers above make an
//! `Index` of a program once and ask it; its questions take no memory.
#![tactic(auto)]

mod below;
mod facts;
mod fault;
mod hierarchy;
mod index;
mod laws;
mod lists;
mod lookup;
mod members;
mod outline;
mod resolve;
mod select;
mod subtype;
mod targets;
mod texts;

pub use fault::IndexFault;
pub use index::Index;
pub use laws::{
    callbacks_resolve, external_names_are_rows, methods_stand_in_classes,
    resolved_fields_are_inherited, resolved_methods_are_inherited, selected_methods_override,
    subtyping_is_reflexive, subtyping_is_transitive,
};
pub use lookup::Found;
pub use members::{ABSTRACT_AT, Method, MethodView};
pub use outline::{MemberOutline, Outline};
pub use select::Selected;
pub use texts::SharedText;
