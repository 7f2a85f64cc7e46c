ghost use Rattle.std.specs.Prelude.{◌≡◌, ◌↔◌, ℕ, [], length, IfOk, IsErrOf, IsOkUnless, IsTrue};
ghost use Rattle.std.specs.Option.{option_copied};
ghost use Rattle.std.specs.FinMap.Entries.{find};
ghost use Rattle.tree_value.specs.Trees.{IsTree, IsFirstOutOfOrder, path_cmp, files_below};
ghost use Rattle.tree_value.specs.declared.tree.TreeFault.TheVariants.{Memory};

use crate::bytes::Bytes;
use crate::fault::CopyFault;
use crate::path::Path;
use crate::sequence::{Sequence, TryCopy};
use std::alloc::{AllocError, AllocFailed, Global};
use std::marker::Model;
use thiserror::Error;

/// Files by rising paths.
#[derive(Debug, Drop)]
pub struct Tree {
    files: Sequence<(Path, Bytes)>,
}

impl Model for Tree {
    ghost use Rattle.std.specs.Prelude.{ℕ, List};
    ghost use Rattle.tree_value.specs.Trees.{IsTree};

    ghost Value = { List (List ℕ × List ℕ) };

    ghost view = { λ tree. tree.files };

    ghost invariant = { λ tree. IsTree tree.files };
}

/// Why files are no tree.
#[derive(Debug, Drop, PartialEq, Eq, Error)]
pub enum TreeFault {
    /// The file of this number, from 1, is the first whose path isn't greater than the one before.
    #[error("file {0} is out of order")]
    OutOfOrder(usize),
    #[error("out of memory")]
    Memory,
}

impl From<AllocError> for TreeFault {
    ghost from_gives = { λ _ fault. fault ≡ Memory };

    fn from(_error: AllocError) -> TreeFault {
        TreeFault::Memory
    }
}

impl<T: Drop> From<AllocFailed<T>> for TreeFault {
    ghost from_gives = { λ _ fault. fault ≡ Memory };

    fn from(_error: AllocFailed<T>) -> TreeFault {
        TreeFault::Memory
    }
}

impl From<CopyFault> for TreeFault {
    ghost from_gives = { λ _ fault. fault ≡ Memory };

    fn from(_fault: CopyFault) -> TreeFault {
        TreeFault::Memory
    }
}

impl Tree {
    /// Takes no memory: the tree keeps the `Vec`.
    pub fn of(_alloc: Global, files: Vec<(Path, Bytes)>) -> Result<Tree, TreeFault>
        ensures ok { IfOk result (λ tree. (tree ≡ files.items) × IsTree files.items) }
        ensures out_of_order { (n : ℕ) → IsErrOf result (TreeFault.OutOfOrder n) → IsFirstOutOfOrder files.items n }
        ensures never_memory { IsErrOf result TreeFault.Memory → ⊥ }
    {
        for at in 0..files.len() {
            let path = files[at].0.as_slice();
            if at > 0 && files[at - 1].0.as_slice().cmp(path).is_ge() {
                return Err(TreeFault::OutOfOrder(at + 1));
            }
        }
        Ok(Tree {
            files: Sequence::from_vec(files),
        })
    }

    pub fn into_vec(self) -> Vec<(Path, Bytes)>
        ensures files { result.items ≡ self }
        ensures tree { IsTree self }
    {
        let Tree { files } = self;
        files.into_vec()
    }

    pub fn as_slice(&self) -> &[(Path, Bytes)]
        ensures files { result.now ≡ self.now }
        ensures tree { IsTree self.now }
    {
        self.files.as_slice()
    }

    /// How many files there are.
    pub fn len(&self) -> usize
        ensures { result ≡ length self.now }
    {
        self.files.len()
    }

    pub fn is_empty(&self) -> bool
        ensures { IsTrue result ↔ (self.now ≡ []) }
    {
        self.files.is_empty()
    }

    /// The bytes of the file at `path`.
    pub fn file(&self, path: &Path) -> Option<&[u8]>
        ensures { option_copied result ≡ find path_cmp path.now self.now }
    {
        let files = self.files.as_slice();
        match files.binary_search_by(|file| file.0.cmp(path)) {
            Ok(at) => Some(files[at].1.as_slice()),
            Err(_) => None,
        }
    }

    /// The files below `path`, as seen from there.
    pub fn sub(&self, path: &Path) -> Result<Tree, TreeFault>
        ensures ok { IfOk result (λ sub. sub ≡ files_below path.now self.now) }
        ensures whole { path.now ≡ [] → IfOk result (λ sub. sub ≡ self.now) }
        ensures only_memory { IsOkUnless result TreeFault.Memory }
    {
        let mut files = Vec::new(self.files.allocator());
        for (name, bytes) in self.files.as_slice() {
            if let Some(below) = name.below(path)? {
                files.push((below, bytes.copy()?))?;
            }
        }
        Ok(Tree {
            files: Sequence::from_vec(files),
        })
    }

    pub fn copy(&self) -> Result<Tree, CopyFault>
        ensures { IfOk result (λ copy. copy ≡ self.now) }
    {
        Ok(Tree {
            files: self.files.copy()?,
        })
    }
}

impl TryCopy for Tree {
    fn try_copy(&self) -> Result<Tree, CopyFault> {
        self.copy()
    }
}
