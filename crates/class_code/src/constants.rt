//! What instructions take and give where their constants say it (JVMS 6.5, 4.4).

ghost use Rattle.std.specs.Prelude.{◌≡◌, ◌==◌, [], Some, IfOk, IfSome, OnOk, option_map, option_and_then, option_copied, replicate};
ghost use Rattle.std.specs.List.{list_any};
ghost use Rattle.jvm_tables.specs.declared.code.Instr.{Instr};
ghost use Rattle.jvm_tables.specs.declared.instruction.ValueKind.TheVariants.{Int};
ghost use Rattle.jvm_tables.specs.Agreement.{uses_constant};
ghost use Rattle.class_model.specs.declared.class_file.Class.{Class};
ghost use Rattle.class_code.specs.Descriptors.{descriptors_of, use_of_call};
ghost use Rattle.class_code.specs.Constants.{number_of, constant_of, descriptor_at, name_at, is_bracket, dimensions_of, may_name, tags, loaded, long_loaded, names_class, pushes, field_use, by_constant, said, values, used, use_of, use_by_row, IsUseOf, if_told, use_if_told};

use crate::descriptors::{Descriptors, Told, told_of_named};
use crate::types::push_some;
use class_model::{Class, Constant, Pool};
use jvm_tables::{ConstantUse, Instr, OpRow, Operands, Operation, ValueKind};
use std::alloc::{AllocError, Global};

/// The values that an instruction takes off the operand stack and those that it puts there, the last on top. It is
/// used again for one instruction after another.
#[derive(Debug, Drop)]
pub struct Use {
    pub takes: Vec<ValueKind>,
    pub gives: Vec<ValueKind>,
}

/// An operand as a number of a constant or of dimensions.
pub fn number_of(operand: i32) -> usize
    ensures { result ≡ number_of operand }
{
    if operand < 0 { 0 } else { operand as usize }
}

/// The constant that an instruction names by its first operand.
pub fn constant_of<'a>(class: &'a Class, instr: &Instr) -> Option<&'a Constant>
    ensures { option_copied result ≡ constant_of class.now instr.now }
{
    let number = number_of(instr.first);
    if number == 0 {
        return None;
    }
    class.pool.constants.get(number - 1)
}

/// The descriptor of the name and type of a number.
#[tactic(auto, unfolding(crate::specs::Constants::descriptor_at))]
pub fn descriptor_at(pool: &Pool, number: u16) -> Option<&[u8]>
    ensures { option_copied result ≡ descriptor_at pool.now number }
{
    match pool.constant(number) {
        Some(Constant::NameType { descriptor, .. }) => pool.text(*descriptor),
        _ => None,
    }
}

/// The name of the name and type of a number.
#[tactic(auto, unfolding(crate::specs::Constants::name_at))]
pub fn name_at(pool: &Pool, number: u16) -> Option<&[u8]>
    ensures { option_copied result ≡ name_at pool.now number }
{
    match pool.constant(number) {
        Some(Constant::NameType { name, .. }) => pool.text(*name),
        _ => None,
    }
}

fn is_bracket(byte: u8) -> bool
    ensures { result ≡ is_bracket byte }
{
    byte == b'['
}

/// The dimensions of a class by its name, which for an array is its descriptor.
pub fn dimensions_of(name: &[u8]) -> usize
    ensures { result ≡ dimensions_of name.now }
{
    name.iter().take_while(|byte| is_bracket(**byte)).count()
}

fn may_name(operation: Operation, made: usize, name: &[u8]) -> bool
    ensures { result ≡ may_name operation made name.now }
{
    match operation {
        Operation::New => dimensions_of(name) == 0,
        Operation::NewReferenceArray => dimensions_of(name) <= 254,
        Operation::NewMultiArray => made <= dimensions_of(name),
        _ => true,
    }
}

pub(crate) fn may_have(named: ConstantUse, tag: u8) -> bool
    ensures { result ≡ list_any (λ t. t == tag) (tags named) }
{
    match named {
        ConstantUse::Field => tag == 9,
        ConstantUse::Method => tag == 10,
        ConstantUse::AnyMethod => tag == 10 || tag == 11,
        ConstantUse::InterfaceMethod => tag == 11,
        _ => false,
    }
}

fn loaded(constant: &Constant) -> Option<ValueKind>
    ensures { result ≡ loaded constant.now }
{
    match constant {
        Constant::Integer(_) => Some(ValueKind::Int),
        Constant::Text(_)
        | Constant::Class(_)
        | Constant::Handle { .. }
        | Constant::MethodType(_) => Some(ValueKind::Reference),
        _ => None,
    }
}

fn long_loaded(constant: &Constant) -> Option<ValueKind>
    ensures { result ≡ long_loaded constant.now }
{
    match constant {
        Constant::Long(_) => Some(ValueKind::Long),
        _ => None,
    }
}

fn names_class(operation: Operation, made: usize, pool: &Pool, constant: &Constant) -> bool
    ensures { result ≡ names_class operation made pool.now constant.now }
{
    match constant {
        Constant::Class(name) => match pool.text(*name) {
            Some(text) => may_name(operation, made, text),
            None => false,
        },
        _ => false,
    }
}

fn put_loaded(loaded: Option<ValueKind>, gives: &mut Vec<ValueKind>) -> Result<bool, AllocError>
    requires { gives.old.items ≡ [] }
    ensures { IfOk result (λ told. use_if_told told [] gives.new.items ≡ option_map pushes loaded) }
{
    match loaded {
        Some(kind) => {
            gives.push(kind)?;
            Ok(true)
        }
        None => Ok(false),
    }
}

fn put_field(
    told: Option<&Told>,
    takes: &mut Vec<ValueKind>,
    gives: &mut Vec<ValueKind>,
) -> Result<bool, AllocError>
    requires takes { takes.old.items ≡ [] }
    requires gives { gives.old.items ≡ [] }
    ensures { IfOk result (λ is_told. use_if_told is_told takes.new.items gives.new.items
        ≡ option_map field_use (option_and_then (λ t. t.field) (option_copied told.entry))) }
{
    let Some(told) = told else {
        return Ok(false);
    };
    match told.field {
        Some(kind) => {
            takes.push(kind)?;
            gives.push(kind)?;
            Ok(true)
        }
        None => Ok(false),
    }
}

fn put_call(
    told: Option<&Told>,
    takes: &mut Vec<ValueKind>,
    gives: &mut Vec<ValueKind>,
) -> Result<bool, AllocError>
    requires takes { takes.old.items ≡ [] }
    requires gives { gives.old.items ≡ [] }
    ensures { IfOk result (λ is_told. use_if_told is_told takes.new.items gives.new.items
        ≡ option_map use_of_call (option_and_then (λ t. t.call) (option_copied told.entry))) }
{
    let Some(told) = told else {
        return Ok(false);
    };
    match &told.call {
        Some(call) => {
            takes.extend_from_slice(call.takes.as_slice())?;
            push_some(gives, call.gives)?;
            Ok(true)
        }
        None => Ok(false),
    }
}

/// What the constant says of the values.
#[tactic(auto, using(crate::proofs::TextsTold::field_told, crate::proofs::TextsTold::call_told))]
fn put_said(
    descriptors: &Descriptors,
    row: &OpRow,
    made: usize,
    pool: &Pool,
    constant: &Constant,
    takes: &mut Vec<ValueKind>,
    gives: &mut Vec<ValueKind>,
) -> Result<bool, AllocError>
    requires told { descriptors.now ≡ descriptors_of pool.now }
    requires takes { takes.old.items ≡ [] }
    requires gives { gives.old.items ≡ [] }
    ensures { IfOk result (λ told. use_if_told told takes.new.items gives.new.items
        ≡ by_constant row.now.constant row.now.operation made pool.now constant.now) }
{
    match row.constant {
        ConstantUse::Nothing => Ok(true),
        ConstantUse::Loadable => put_loaded(loaded(constant), gives),
        ConstantUse::LoadableLong => put_loaded(long_loaded(constant), gives),
        ConstantUse::Class => Ok(names_class(row.operation, made, pool, constant)),
        ConstantUse::Field => put_field(
            told_of_named(descriptors, ConstantUse::Field, pool, constant),
            takes,
            gives,
        ),
        named => put_call(
            told_of_named(descriptors, named, pool, constant),
            takes,
            gives,
        ),
    }
}

fn put_ints(kinds: &mut Vec<ValueKind>, made: usize) -> Result<(), AllocError>
    requires { kinds.old.items ≡ [] }
    ensures { OnOk result (kinds.new.items ≡ replicate made Int) }
{
    for _ in 0..made {
        kinds.push(ValueKind::Int)?;
    }
    Ok(())
}

/// The values that operands stand for, in place of what the constant says.
fn put_values(
    operands: Operands,
    made: usize,
    kinds: &mut Vec<ValueKind>,
) -> Result<bool, AllocError>
    ensures { IfOk result (λ told. if_told told kinds.new.items ≡ values operands kinds.old.items made) }
{
    match operands {
        Operands::ByConstant => Ok(true),
        Operands::ReferenceByConstant => {
            kinds.insert(0, ValueKind::Reference)?;
            Ok(true)
        }
        Operands::IntForEachDimension => {
            kinds.clear();
            put_ints(kinds, made)?;
            Ok(true)
        }
        _ => match operands.kinds() {
            Some(told) => {
                kinds.clear();
                kinds.extend_from_slice(told)?;
                Ok(true)
            }
            None => Ok(false),
        },
    }
}

fn uses_constant(named: ConstantUse) -> bool
    ensures { result ≡ uses_constant named }
{
    !matches!(named, ConstantUse::Nothing)
}

/// What an instruction takes and gives, where its row alone tells both.
#[tactic(auto, using(crate::proofs::Uses::used_by_row))]
pub fn told_by_row(row: &OpRow) -> Option<(&'static [ValueKind], &'static [ValueKind])>
    ensures told { option_map (λ told. used told.0.now told.1.now) result ≡ use_by_row row.now }
    ensures alike { IfSome result (λ told. IsUseOf row.now told.0.now told.1.now) }
{
    if uses_constant(row.constant) {
        return None;
    }
    let takes = row.takes.kinds()?;
    let gives = row.gives.kinds()?;
    Some((takes, gives))
}

impl Use {
    /// Empty buffers.
    pub fn new(alloc: Global) -> Use {
        Use {
            takes: Vec::new(alloc),
            gives: Vec::new(alloc),
        }
    }

    /// What the constant says of the values, where the instruction names one.
    fn say(
        &mut self,
        descriptors: &Descriptors,
        class: &Class,
        row: &OpRow,
        instr: &Instr,
        made: usize,
    ) -> Result<bool, AllocError>
        requires told { descriptors.now ≡ descriptors_of class.now.pool }
        requires made { made ≡ number_of instr.now.second }
        ensures { IfOk result (λ told. use_if_told told self.new.takes.items self.new.gives.items ≡ said class.now row.now instr.now) }
    {
        self.takes.clear();
        self.gives.clear();
        if !uses_constant(row.constant) {
            return Ok(true);
        }
        match constant_of(class, instr) {
            Some(constant) => put_said(
                descriptors,
                row,
                made,
                &class.pool,
                constant,
                &mut self.takes,
                &mut self.gives,
            ),
            None => Ok(false),
        }
    }

    /// Becomes what an instruction takes and gives, by what the texts of its class say. False where the
    /// instruction's constant is none that it may name, and where neither its row nor a constant tells the
    /// values; then the buffers hold nothing of use.
    #[tactic(auto, unfolding(crate::specs::Constants::use_of))]
    pub fn fill(
        &mut self,
        descriptors: &Descriptors,
        class: &Class,
        row: &OpRow,
        instr: &Instr,
    ) -> Result<bool, AllocError>
        requires { descriptors.now ≡ descriptors_of class.now.pool }
        ensures { IfOk result (λ told. use_if_told told self.new.takes.items self.new.gives.items ≡ use_of class.now row.now instr.now) }
    {
        let made = number_of(instr.second);
        if !self.say(descriptors, class, row, instr, made)? {
            return Ok(false);
        }
        if !put_values(row.takes, made, &mut self.takes)? {
            return Ok(false);
        }
        put_values(row.gives, made, &mut self.gives)
    }
}
