//! Classes that have no text, as differences to the class of one constant task (JVMS 4).

use crate::pools::fault_text;
use class_model::{
    Attribute, Class, Constant, Element, Handler, Member, Note, Pair, Pool, StackFrame,
};
use class_write::write_class;
use questions::{Unanswered, number};
use sqlite_items::Items;
use std::alloc::{AllocError, Global};

/// The constants in order: a text, or the class that is named by an index.
const CONSTANTS: [(&[u8], u16); 12] = [
    (b"A", 0),
    (b"", 1),
    (b"java/lang/Object", 0),
    (b"", 3),
    (b"a", 0),
    (b"()I", 0),
    (b"Code", 0),
    (b"RuntimeVisibleAnnotations", 0),
    (b"Lmill/Task;", 0),
    (b"name", 0),
    (b"StackMapTable", 0),
    (b"", 2),
];

/// How a class differs from that of the task.
#[derive(Clone, Copy)]
struct Plan {
    constants: u16,
    major: u16,
    this_class: u16,
    super_class: u16,
    /// So many interfaces, each of which is named by no constant.
    interfaces: u32,
    flags: u16,
    name: u16,
    descriptor: u16,
    methods: u16,
    codes: u16,
    code_bytes: u16,
    /// The constant of the class that a handler catches; 0 for no handler.
    caught: u16,
    /// The tag of a frame; 0 for none.
    frame: u16,
    /// How many arrays, less one, the value of the annotation is within.
    depth: u16,
}

const SOUND: Plan = Plan {
    constants: 10,
    major: 52,
    this_class: 2,
    super_class: 4,
    interfaces: 0,
    flags: 0x0009,
    name: 5,
    descriptor: 6,
    methods: 1,
    codes: 1,
    code_bytes: 2,
    caught: 0,
    frame: 0,
    depth: 1,
};

fn changed(plan: Plan, part: &str, value: u32) -> Option<Plan> {
    if part == "interfaces" {
        return Some(Plan {
            interfaces: value,
            ..plan
        });
    }
    let value = u16::try_from(value).ok()?;
    match part {
        "constants" => Some(Plan {
            constants: value,
            ..plan
        }),
        "major" => Some(Plan {
            major: value,
            ..plan
        }),
        "this_class" => Some(Plan {
            this_class: value,
            ..plan
        }),
        "super_class" => Some(Plan {
            super_class: value,
            ..plan
        }),
        "flags" => Some(Plan {
            flags: value,
            ..plan
        }),
        "name" => Some(Plan {
            name: value,
            ..plan
        }),
        "descriptor" => Some(Plan {
            descriptor: value,
            ..plan
        }),
        "methods" => Some(Plan {
            methods: value,
            ..plan
        }),
        "codes" => Some(Plan {
            codes: value,
            ..plan
        }),
        "code_bytes" => Some(Plan {
            code_bytes: value,
            ..plan
        }),
        "caught" => Some(Plan {
            caught: value,
            ..plan
        }),
        "frame" => Some(Plan {
            frame: value,
            ..plan
        }),
        "depth" => Some(Plan {
            depth: value,
            ..plan
        }),
        _ => None,
    }
}

fn plan_of(words: &[&str]) -> Result<Plan, Unanswered> {
    let mut plan = SOUND;
    for word in words {
        let Some((part, value)) = word.split_once('=') else {
            return Err(Unanswered::BadQuestion);
        };
        match changed(plan, part, number(value)?) {
            Some(next) => plan = next,
            None => return Err(Unanswered::BadQuestion),
        }
    }
    Ok(plan)
}

fn pool_of(alloc: Global, plan: Plan) -> Result<Pool, AllocError> {
    let mut constants = Items::new(alloc);
    for (text, class) in CONSTANTS.iter().take(usize::from(plan.constants)) {
        let constant = if text.is_empty() {
            Constant::Class(*class)
        } else {
            Constant::Utf8(Items::from_slice(alloc, text)?)
        };
        constants.push(constant)?;
    }
    Ok(Pool { constants })
}

fn annotations(alloc: Global, depth: u16) -> Result<Attribute, AllocError> {
    let mut value = Element::Const {
        tag: b's',
        index: 5,
    };
    for _ in 1..depth {
        let mut values = Items::new(alloc);
        values.push(value)?;
        value = Element::Many(values);
    }
    let mut pairs = Items::new(alloc);
    pairs.push(Pair { name: 10, value })?;
    let mut list = Items::new(alloc);
    list.push(Note { kind: 9, pairs })?;
    Ok(Attribute::Annotations { name: 8, list })
}

fn stack_map(alloc: Global, tag: u8) -> Result<Attribute, AllocError> {
    let mut frames = Items::new(alloc);
    frames.push(StackFrame {
        tag,
        delta: 0,
        locals: Items::new(alloc),
        stack: Items::new(alloc),
    })?;
    Ok(Attribute::StackMap { name: 11, frames })
}

fn code_of(alloc: Global, plan: Plan) -> Result<Attribute, AllocError> {
    let mut table = Items::new(alloc);
    if plan.caught != 0 {
        table.push(Handler {
            start: 0,
            end: 1,
            handler: 1,
            catch_type: plan.caught,
        })?;
    }
    let mut attributes = Items::new(alloc);
    if plan.frame != 0 {
        attributes.push(stack_map(alloc, u8::try_from(plan.frame).unwrap_or(0))?)?;
    }
    let code: &[u8] = if plan.code_bytes == 0 {
        b""
    } else {
        b"\x08\xac"
    };
    Ok(Attribute::Code {
        name: 7,
        max_stack: 1,
        max_locals: 0,
        code: Items::from_slice(alloc, code)?,
        table,
        attributes,
    })
}

fn method_of(alloc: Global, plan: Plan) -> Result<Member, AllocError> {
    let mut attributes = Items::new(alloc);
    for _ in 0..plan.codes {
        attributes.push(code_of(alloc, plan)?)?;
    }
    attributes.push(annotations(alloc, plan.depth)?)?;
    Ok(Member {
        flags: plan.flags,
        name: plan.name,
        descriptor: plan.descriptor,
        attributes,
    })
}

fn class_of(alloc: Global, plan: Plan) -> Result<Class, AllocError> {
    let mut interfaces = Items::new(alloc);
    for _ in 0..plan.interfaces {
        interfaces.push(0)?;
    }
    let mut methods = Items::new(alloc);
    for _ in 0..plan.methods {
        methods.push(method_of(alloc, plan)?)?;
    }
    Ok(Class {
        minor: 0,
        major: plan.major,
        pool: pool_of(alloc, plan)?,
        flags: 0x0021,
        this_class: plan.this_class,
        super_class: plan.super_class,
        interfaces,
        fields: Items::new(alloc),
        methods,
        attributes: Items::new(alloc),
    })
}

/// The bytes that are written of a class, in hexadecimal digits, or why there are none.
fn written(alloc: Global, class: &Class) -> Result<String, AllocError> {
    match write_class(alloc, class) {
        Ok(bytes) => hex::encode(alloc, bytes.as_slice()),
        Err(fault) => fault_text(alloc, fault),
    }
}

pub fn answer_to(alloc: Global, words: &[&str]) -> Result<String, Unanswered> {
    match words {
        ["class", changes @ ..] => {
            let class = class_of(alloc, plan_of(changes)?)?;
            Ok(written(alloc, &class)?)
        }
        _ => Err(Unanswered::BadQuestion),
    }
}
