//! The rows of the table of instructions (JVMS 6.5).

use class_code::told_by_row;
use jvm_tables::{Flow, Form, OpRow, Operands, Operation, ValueKind, op_row};
use questions::{Unanswered, hex_number};
use std::alloc::{AllocError, Global};

fn form_name(form: Form) -> &'static str {
    match form {
        Form::Bare => "Bare",
        Form::Byte => "Byte",
        Form::Short => "Short",
        Form::ByteConstant => "ByteConstant",
        Form::Constant => "Constant",
        Form::Local => "Local",
        Form::LocalIncrement => "LocalIncrement",
        Form::Branch => "Branch",
        Form::WideBranch => "WideBranch",
        Form::TableSwitch => "TableSwitch",
        Form::LookupSwitch => "LookupSwitch",
        Form::InterfaceCall => "InterfaceCall",
        Form::CallSite => "CallSite",
        Form::ElementType => "ElementType",
        Form::Dimensions => "Dimensions",
        Form::Wide => "Wide",
    }
}

fn flow_name(flow: Flow) -> &'static str {
    match flow {
        Flow::Next => "Next",
        Flow::Branch => "Branch",
        Flow::Jump => "Jump",
        Flow::Switch => "Switch",
        Flow::Return => "Return",
        Flow::Throw => "Throw",
    }
}

fn operation_name(operation: Operation) -> &'static str {
    match operation {
        Operation::Nop => "Nop",
        Operation::PushNull => "PushNull",
        Operation::PushInt => "PushInt",
        Operation::PushLong => "PushLong",
        Operation::PushConstant => "PushConstant",
        Operation::PushLongConstant => "PushLongConstant",
        Operation::LoadInt => "LoadInt",
        Operation::LoadLong => "LoadLong",
        Operation::LoadReference => "LoadReference",
        Operation::StoreInt => "StoreInt",
        Operation::StoreLong => "StoreLong",
        Operation::StoreReference => "StoreReference",
        Operation::LoadIntElement => "LoadIntElement",
        Operation::LoadLongElement => "LoadLongElement",
        Operation::LoadReferenceElement => "LoadReferenceElement",
        Operation::LoadByteElement => "LoadByteElement",
        Operation::LoadCharElement => "LoadCharElement",
        Operation::LoadShortElement => "LoadShortElement",
        Operation::StoreIntElement => "StoreIntElement",
        Operation::StoreLongElement => "StoreLongElement",
        Operation::StoreReferenceElement => "StoreReferenceElement",
        Operation::StoreByteElement => "StoreByteElement",
        Operation::StoreCharElement => "StoreCharElement",
        Operation::StoreShortElement => "StoreShortElement",
        Operation::Pop => "Pop",
        Operation::Pop2 => "Pop2",
        Operation::Dup => "Dup",
        Operation::DupX1 => "DupX1",
        Operation::DupX2 => "DupX2",
        Operation::Dup2 => "Dup2",
        Operation::Dup2X1 => "Dup2X1",
        Operation::Dup2X2 => "Dup2X2",
        Operation::Swap => "Swap",
        Operation::AddInt => "AddInt",
        Operation::AddLong => "AddLong",
        Operation::SubtractInt => "SubtractInt",
        Operation::SubtractLong => "SubtractLong",
        Operation::MultiplyInt => "MultiplyInt",
        Operation::MultiplyLong => "MultiplyLong",
        Operation::DivideInt => "DivideInt",
        Operation::DivideLong => "DivideLong",
        Operation::RemainderInt => "RemainderInt",
        Operation::RemainderLong => "RemainderLong",
        Operation::NegateInt => "NegateInt",
        Operation::NegateLong => "NegateLong",
        Operation::ShiftLeftInt => "ShiftLeftInt",
        Operation::ShiftLeftLong => "ShiftLeftLong",
        Operation::ShiftRightInt => "ShiftRightInt",
        Operation::ShiftRightLong => "ShiftRightLong",
        Operation::UnsignedShiftRightInt => "UnsignedShiftRightInt",
        Operation::UnsignedShiftRightLong => "UnsignedShiftRightLong",
        Operation::AndInt => "AndInt",
        Operation::AndLong => "AndLong",
        Operation::OrInt => "OrInt",
        Operation::OrLong => "OrLong",
        Operation::XorInt => "XorInt",
        Operation::XorLong => "XorLong",
        Operation::IncrementInt => "IncrementInt",
        Operation::IntToLong => "IntToLong",
        Operation::LongToInt => "LongToInt",
        Operation::IntToByte => "IntToByte",
        Operation::IntToChar => "IntToChar",
        Operation::IntToShort => "IntToShort",
        Operation::CompareLong => "CompareLong",
        Operation::IfEq => "IfEq",
        Operation::IfNe => "IfNe",
        Operation::IfLt => "IfLt",
        Operation::IfGe => "IfGe",
        Operation::IfGt => "IfGt",
        Operation::IfLe => "IfLe",
        Operation::IfIntsEq => "IfIntsEq",
        Operation::IfIntsNe => "IfIntsNe",
        Operation::IfIntsLt => "IfIntsLt",
        Operation::IfIntsGe => "IfIntsGe",
        Operation::IfIntsGt => "IfIntsGt",
        Operation::IfIntsLe => "IfIntsLe",
        Operation::IfReferencesEq => "IfReferencesEq",
        Operation::IfReferencesNe => "IfReferencesNe",
        Operation::IfNull => "IfNull",
        Operation::IfNonNull => "IfNonNull",
        Operation::Goto => "Goto",
        Operation::TableSwitch => "TableSwitch",
        Operation::LookupSwitch => "LookupSwitch",
        Operation::ReturnInt => "ReturnInt",
        Operation::ReturnLong => "ReturnLong",
        Operation::ReturnReference => "ReturnReference",
        Operation::Return => "Return",
        Operation::GetStatic => "GetStatic",
        Operation::PutStatic => "PutStatic",
        Operation::GetField => "GetField",
        Operation::PutField => "PutField",
        Operation::InvokeVirtual => "InvokeVirtual",
        Operation::InvokeSpecial => "InvokeSpecial",
        Operation::InvokeStatic => "InvokeStatic",
        Operation::InvokeInterface => "InvokeInterface",
        Operation::InvokeDynamic => "InvokeDynamic",
        Operation::New => "New",
        Operation::NewArray => "NewArray",
        Operation::NewReferenceArray => "NewReferenceArray",
        Operation::NewMultiArray => "NewMultiArray",
        Operation::ArrayLength => "ArrayLength",
        Operation::Throw => "Throw",
        Operation::CheckCast => "CheckCast",
        Operation::InstanceOf => "InstanceOf",
        Operation::MonitorEnter => "MonitorEnter",
        Operation::MonitorExit => "MonitorExit",
        Operation::Wide => "Wide",
        Operation::Float => "Float",
    }
}

fn letter(kind: ValueKind) -> &'static str {
    match kind {
        ValueKind::Int => "I",
        ValueKind::Long => "L",
        ValueKind::Reference => "R",
    }
}

/// Kinds by their letters, the last on top.
fn letters(alloc: Global, kinds: &[ValueKind]) -> Result<String, AllocError> {
    let mut text = String::new(alloc);
    for kind in kinds {
        text.push_str(letter(*kind))?;
    }
    Ok(text)
}

/// The kinds of operands; a dot where the row alone does not tell them.
fn operands_text(alloc: Global, operands: Operands) -> Result<String, AllocError> {
    match operands.kinds() {
        None => ".".to_string(alloc),
        Some(kinds) => letters(alloc, kinds),
    }
}

/// Operation, kinds that are taken and given, the constant or local that is implied, flow, and whether it initialises.
fn effect(alloc: Global, row: &OpRow) -> Result<String, AllocError> {
    let operation = operation_name(row.operation);
    let takes = operands_text(alloc, row.takes)?;
    let gives = operands_text(alloc, row.gives)?;
    let implied = row.implied;
    let flow = flow_name(row.flow);
    let initialises = if row.initialises { " initialises" } else { "" };
    format!(in alloc; " {operation} {takes}->{gives} {implied} {flow}{initialises}")
}

fn row_text(alloc: Global, row: &OpRow) -> Result<String, AllocError> {
    let opcode = row.opcode;
    let form = form_name(row.form);
    let length = row.length;
    let effect = if row.is_float {
        " float".to_string(alloc)?
    } else {
        effect(alloc, row)?
    };
    format!(in alloc; "{opcode:02x} {form} {length}{effect}")
}

fn opcode_answer(alloc: Global, opcode: u8) -> Result<String, AllocError> {
    match op_row(opcode) {
        None => "none".to_string(alloc),
        Some(row) => row_text(alloc, &row),
    }
}

fn thrown_answer(alloc: Global, opcode: u8) -> Result<String, AllocError> {
    let classes = match op_row(opcode) {
        None => return "none".to_string(alloc),
        Some(row) => row.throws.classes(),
    };
    let mut text = String::new(alloc);
    match classes {
        None => text.push_str("any")?,
        Some(classes) => for class in classes {
            text.push_str(class)?;
        },
    }
    Ok(text)
}

/// The kinds that are taken and given, where the row alone tells both.
fn told_answer(alloc: Global, opcode: u8) -> Result<String, AllocError> {
    let Some(row) = op_row(opcode) else {
        return "none".to_string(alloc);
    };
    match told_by_row(&row) {
        None => "told by no row".to_string(alloc),
        Some((takes, gives)) => {
            let takes = letters(alloc, takes)?;
            let gives = letters(alloc, gives)?;
            format!(in alloc; "{takes} to {gives}")
        }
    }
}

fn opcode_of(word: &str) -> Result<u8, Unanswered> {
    u8::try_from(hex_number(word)?).map_err(|_| Unanswered::BadQuestion)
}

pub fn answer_to(alloc: Global, words: &[&str]) -> Result<String, Unanswered> {
    match words {
        ["opcode", word] => Ok(opcode_answer(alloc, opcode_of(word)?)?),
        ["thrown", word] => Ok(thrown_answer(alloc, opcode_of(word)?)?),
        ["told", word] => Ok(told_answer(alloc, opcode_of(word)?)?),
        _ => Err(Unanswered::BadQuestion),
    }
}
