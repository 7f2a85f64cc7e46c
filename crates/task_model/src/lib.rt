//! Tasks: their names, their rows, and lists of both. It stands on `tree_value`, whose texts and paths a row holds, and
//! on `class_model`, whose numbers name a task's method. The layers above take from here what a task's name is, and see
//! the lists of tasks as lists.
#![tactic(auto)]

mod task_name;
mod task_row;

pub use task_name::{MAX_NAME_LEN, MAX_SEGMENT_LEN, is_name_segment, is_task_name};
pub use task_row::{Kind, TaskId, TaskIds, TaskRow, TaskRows};
