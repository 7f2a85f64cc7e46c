//! The graph of a build's tasks: tasks in name order whose inputs lead back to none of them, the plan for chosen tasks,
//! and the groups of tasks that are run together. It stands on the rows of `task_model`, and on `place_graph` for the
//! graph's paths. The layers above make a `Graph` of rows, and rest on `plan` and `group_of`, which are exactly the
//! definitions of specs/Plans.antt.
#![tactic(auto)]

mod edges;
mod fault;
mod graph;
mod group;
mod plans;
mod post_order;
mod ranks;
mod returning;

pub use fault::{GraphFault, Limit};
pub use graph::Graph;
pub use group::{Group, group_of};
pub use plans::plan;
