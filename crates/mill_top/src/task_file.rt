//! What the class files of tasks say.

ghost use Rattle.std.specs.Prelude.{◌≡◌};
ghost use Rattle.mill_top.specs.Builds.{small_task, linked_task, task_file_of};
ghost use Rattle.mill_top.specs.Graphs.{descriptor_of};
ghost use Rattle.mill_top.specs.Scratch.{result_of};

use crate::linked_file::LinkedFile;
use crate::operation::Operation;
use crate::small_file::{SmallFile, constant};

/// What the method of a task does.
#[derive(Clone, Copy, Debug, PartialEq, Eq)]
pub enum Body {
    /// It returns a constant.
    Constant(i32),
    /// It returns the operation's result on the input's value, the left operand, and a constant.
    Linked {
        input: u8,
        operation: Operation,
        constant: i32,
    },
}

/// A class with one task.
#[derive(Clone, Copy, Debug, PartialEq, Eq)]
pub struct TaskFile {
    /// The class's name, `A` to `Z`.
    pub class: u8,
    /// The task's name, `a` to `z`.
    pub task: u8,
    pub body: Body,
}

impl Body {
    /// The value, given that of the input, if the body has one.
    #[tactic(auto, unfolding(crate::specs::Scratch::result_of))]
    pub fn result(self, given: Option<i32>) -> i32
        ensures { result ≡ result_of self given }
    {
        match self {
            Body::Constant(constant) => constant,
            Body::Linked {
                operation,
                constant,
                ..
            } => operation.apply(given.unwrap_or(0), constant),
        }
    }

    /// The descriptor of the method (JVMS 4.3.3).
    pub fn descriptor(self) -> &'static [u8]
        ensures { result.now ≡ descriptor_of self }
    {
        match self {
            Body::Constant(_) => b"()I",
            Body::Linked { .. } => b"(I)I",
        }
    }
}

fn small_task(file: SmallFile) -> TaskFile
    ensures { result ≡ small_task file }
{
    TaskFile {
        class: file.class,
        task: file.task,
        body: Body::Constant(constant(file.opcode)),
    }
}

fn linked_task(file: LinkedFile) -> TaskFile
    ensures { result ≡ linked_task file }
{
    TaskFile {
        class: file.class,
        task: file.task,
        body: Body::Linked {
            input: file.input,
            operation: file.operation,
            constant: constant(file.opcode),
        },
    }
}

impl TaskFile {
    /// What the small or linked file of these bytes says, or `None` where they are neither.
    #[tactic(auto, unfolding(crate::specs::Builds::task_file_of))]
    pub fn read(bytes: &[u8]) -> Option<TaskFile>
        ensures { result ≡ task_file_of bytes.now }
    {
        match SmallFile::read(bytes) {
            Some(file) => Some(small_task(file)),
            None => Some(linked_task(LinkedFile::read(bytes)?)),
        }
    }
}
