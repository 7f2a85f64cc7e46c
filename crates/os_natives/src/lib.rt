//! Natives of files, of the log and of the environment: one function each, whose clause says that it answers as
//! `native_model` defines, over the world that is kept there.
//!
//! It stands on `native_model` and `jvm_heap`, beside `native_text` and `list_natives`. Each native first reads all that it
//! needs and tells what is to be done, and then does that. What calls a native by its row stands above it.
#![tactic(auto)]

mod env;
mod log;
mod paths;
mod plan;
mod reading;
mod referring;
mod units;
mod writing;

pub use env::{env_get, env_now};
pub use log::log_info;
pub use reading::{fs_read, fs_size};
pub use referring::{fs_dest, reference_sub};
pub use writing::fs_write;
