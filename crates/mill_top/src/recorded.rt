//! What a command reads.

ghost use Rattle.std.specs.Prelude.{◌≡◌, IfOk};

use std::alloc::Global;
use std::marker::Model;
use tree_value::{CopyFault, Text, Tree};

/// The files, the environment, the moment in milliseconds, and the words of a command.
#[derive(Debug, Drop)]
pub struct Record {
    pub files: Tree,
    pub environment: Variables,
    pub moment: u64,
    pub words: Words,
}

/// Names and values of the environment.
#[derive(Debug, Drop)]
pub struct Variables {
    items: Vec<(Text, Text)>,
}

impl Model for Variables {
    ghost use Rattle.std.specs.Prelude.{ℕ, List};

    ghost Value = { List (List ℕ × List ℕ) };

    ghost view = { λ variables. variables.items.items };
}

impl Variables {
    pub fn copy_of(alloc: Global, variables: &[(Text, Text)]) -> Result<Variables, CopyFault>
        ensures { IfOk result (λ copy. copy ≡ variables.now) }
    {
        let mut items = Vec::with_capacity(alloc, variables.len())?;
        for variable in variables {
            items.push((variable.0.copy()?, variable.1.copy()?))?;
        }
        Ok(Variables { items })
    }
}

/// The words of a command.
#[derive(Debug, Drop)]
pub struct Words {
    items: Vec<Text>,
}

impl Model for Words {
    ghost use Rattle.std.specs.Prelude.{ℕ, List};

    ghost Value = { List (List ℕ) };

    ghost view = { λ words. words.items.items };
}

impl Words {
    pub fn copy_of(alloc: Global, words: &[Text]) -> Result<Words, CopyFault>
        ensures { IfOk result (λ copy. copy ≡ words.now) }
    {
        let mut items = Vec::with_capacity(alloc, words.len())?;
        for word in words {
            items.push(word.copy()?)?;
        }
        Ok(Words { items })
    }
}
