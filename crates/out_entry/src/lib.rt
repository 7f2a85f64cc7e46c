//! Entries of the store: what is kept of a task's last run, as a JSON text. It stands on the values of
//! `tree_value` and their JSON in `value_text`. The layer above uses that an entry's bytes are read back as
//! that entry, that other bytes are no entry's, and that an entry has one text.
#![tactic(auto)]

mod decode;
mod encode;
mod entry;

pub use decode::{MAX_FILE_NAME_LEN, read_entry};
pub use encode::entry_bytes;
pub use entry::{Entry, Kept};
