//! The graph of the tasks that a verified program declares. It stands on the annotations of `task_annotations`, the graphs
//! of `task_graph` and the verified programs of `class_verify`. The layers above rest on `graph_of`, which gives exactly
//! the graph of the tasks, or the first refusal.
#![tactic(auto)]

mod doubles;
mod graph;
mod links;
mod methods;
mod rows;
mod tasks;
mod texts;

pub use graph::graph_of;
