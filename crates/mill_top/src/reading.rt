//! Reading a workspace.

ghost use Rattle.std.specs.Prelude.{◌≡◌, IfOk, IfSome, OnOk};
ghost use Rattle.io_traits.specs.Causes.{HasCause};
ghost use Rattle.io_traits.specs.Files.{names, IsInOrder};
ghost use Rattle.mill_top.specs.Scratch.{IsFileAdded};

use io_traits::{IoFault, Workspace};
use std::alloc::Global;
use tree_value::{Bytes, Path, Tree, TreeFault};

// Adds the file of this name, if it is still there.
fn add_file<W: Workspace>(
    workspace: &mut W,
    name: &Path,
    files: &mut Vec<(Path, Bytes)>,
) -> Result<(), IoFault>
    ensures added { OnOk result
        (IsFileAdded (W.content workspace.old) name.now files.old.items files.new.items) }
    ensures content { W.content workspace.new ≡ W.content workspace.old }
    ensures cause { HasCause (W.faults workspace.old) (W.faults workspace.new) result }
    ensures kept { W.kept workspace.new ≡ W.kept workspace.old }
    ensures plan { W.plan workspace.new ≡ W.plan workspace.old }
{
    match workspace.read(name)? {
        Some(bytes) => {
            files.push((name.copy()?, bytes))?;
            Ok(())
        }
        None => Ok(()),
    }
}

// The tree of files in order.
fn tree_of(alloc: Global, files: Vec<(Path, Bytes)>) -> Tree
    requires { IsInOrder (names files.items) }
    ensures { result ≡ files.items }
{
    match Tree::of(alloc, files) {
        Ok(tree) => tree,
        Err(TreeFault::OutOfOrder(_)) => unreachable!(),
        Err(TreeFault::Memory) => unreachable!(),
    }
}

/// All files of the workspace. One that is listed and gone when it is read is left out.
pub fn read_files<W: Workspace>(alloc: Global, workspace: &mut W) -> Result<Tree, IoFault>
    ensures files { IfOk result (λ files. IfSome (W.content workspace.old) (λ told. files ≡ told)) }
    ensures content { W.content workspace.new ≡ W.content workspace.old }
    ensures cause { HasCause (W.faults workspace.old) (W.faults workspace.new) result }
    ensures kept { W.kept workspace.new ≡ W.kept workspace.old }
    ensures plan { W.plan workspace.new ≡ W.plan workspace.old }
{
    let names = workspace.list()?;
    let mut files = Vec::new(alloc);
    for name in &names {
        add_file(workspace, name, &mut files)?;
    }
    Ok(tree_of(alloc, files))
}
