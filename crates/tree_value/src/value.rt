ghost use Rattle.std.specs.Prelude.{◌≡◌, IfOk};

use crate::digest::Digest;
use crate::fault::CopyFault;
use crate::path::Path;
use crate::sequence::{Sequence, TryCopy};
use crate::text::Text;

/// The type of a task's result.
#[derive(Clone, Copy, Debug, PartialEq, Eq)]
pub enum ValueType {
    Bool,
    Int,
    Long,
    Text,
    List,
    Ref,
}

/// A reference to a tree: who made it, where it lies there, and its digest. The workspace's own files
/// have the empty text as owner.
#[derive(Debug, Drop, PartialEq, Eq)]
pub struct PathRef {
    pub owner: Text,
    pub path: Path,
    pub digest: Digest,
}

impl PathRef {
    pub fn copy(&self) -> Result<PathRef, CopyFault>
        ensures { IfOk result (λ copy. copy ≡ self.now) }
    {
        Ok(PathRef {
            owner: self.owner.copy()?,
            path: self.path.copy()?,
            digest: self.digest,
        })
    }
}

/// The result of a task. A reference stands for its tree by the tree's digest.
#[derive(Debug, Drop)]
pub enum Value {
    Null,
    Bool(bool),
    Int(i32),
    Long(i64),
    Text(Text),
    List(Values),
    Ref(PathRef),
}

/// The items of a list.
pub type Values = Sequence<Value>;

impl Value {
    #[cycle(copy)]
    pub fn copy(&self) -> Result<Value, CopyFault>
        ensures { IfOk result (λ copy. copy ≡ self.now) }
    {
        match self {
            Value::Null => Ok(Value::Null),
            Value::Bool(flag) => Ok(Value::Bool(*flag)),
            Value::Int(number) => Ok(Value::Int(*number)),
            Value::Long(number) => Ok(Value::Long(*number)),
            Value::Text(text) => Ok(Value::Text(text.copy()?)),
            Value::List(values) => Ok(Value::List(copy_values(values)?)),
            Value::Ref(path_ref) => Ok(Value::Ref(path_ref.copy()?)),
        }
    }
}

#[cycle(copy)]
fn copy_values(values: &Values) -> Result<Values, CopyFault>
    ensures { IfOk result (λ copy. copy ≡ values.now) }
{
    let mut copies = Vec::with_capacity(values.allocator(), values.len())?;
    for value in values.as_slice() {
        copies.push(value.copy()?)?;
    }
    Ok(Values::from_vec(copies))
}

impl TryCopy for PathRef {
    fn try_copy(&self) -> Result<PathRef, CopyFault> {
        self.copy()
    }
}

impl TryCopy for Value {
    fn try_copy(&self) -> Result<Value, CopyFault> {
        self.copy()
    }
}
