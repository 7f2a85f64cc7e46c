//! The texts of values: how a value is printed, how it is stored and hashed, and which value has a
//! stored text. It stands on the values of `tree_value` and on `serde_json` for JSON (RFC 8259). The layer
//! above uses that a stored text is read back as its value and that each value has one stored text; for
//! JSON texts that hold values it takes `to_json`, `from_json` and the lemma `read-compact_text`.
#![tactic(auto)]

mod decode;
mod encode;
mod fault;
mod form;
mod parts;
mod texts;
mod utf8;

pub use decode::digest_of;
pub use fault::ValueFault;
pub use parts::{MAX_LEVELS, from_json, read_json, to_json};
pub use texts::{digest_value, parse, print, store_text};
pub use utf8::{path_str, text_str, to_text};
