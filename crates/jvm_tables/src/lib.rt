//! The tables of the machine, and the decoding of its code: instructions, external classes and
//! natives, each one constant array of plain rows whose laws are proved over the whole table.
//! It stands on nothing of `mill`. Verifier, interpreter and method hashes read an instruction by
//! `decode` and its row by `op_row`, and keep no list of opcodes of their own.
#![tactic(auto)]

mod code;
mod decoding;
mod elements;
mod externals;
mod instruction;
mod laws;
mod natives;
mod opcodes;
mod pushed;
mod reading;
mod switches;
mod switching;

pub use code::{CodeFault, Instr};
pub use decoding::decode;
pub use elements::{ElementKind, element_kind, newarray_names_an_element};
pub use externals::{
    EXTERNALS, ExternalFacts, ExternalMethod, ExternalRow, Family, external, external_at,
    external_names_rise, external_supers_end, externals_agree,
};
pub use instruction::{ConstantUse, Flow, Form, OpRow, Operands, Operation, Throws, ValueKind};
pub use laws::{
    instructions_are_never_wide, instructions_end_within, instructions_have_rows, own_bytes_decide,
    switch_keys_lead, switch_keys_rise,
};
pub use natives::{
    Callback, NATIVES, NativeFacts, NativeRow, callbacks_can_be_called, native_at,
    native_classes_are_external, native_row, natives_occur_once,
};
pub use opcodes::{
    OPCODES, float_operations_are_float, op_row, opcodes_agree_with_their_forms,
    opcodes_are_numbered_by_their_operations, opcodes_do_as_their_operations, opcodes_have_rows,
    opcodes_stand_once, thrown_classes_are_external,
};
pub use pushed::{PushedNumber, pushed_number};
pub use switching::{is_switch, switch_case, switch_len, switch_target};
