//! The class files of a workspace.

ghost use Rattle.std.specs.Prelude.{◌≡◌, ◌&&◌, not, IfOk};
ghost use Rattle.std.specs.Option.{option_copied};
ghost use Rattle.std.specs.Str.{bytes_eq};
ghost use Rattle.class_read.specs.ClassFiles.{is_class_path};
ghost use Rattle.mill_top.specs.Builds.{class_path, is_in_place, is_out_of_place, first_out_of_place};
ghost use Rattle.mill_top.specs.Graphs.{task_files};

use crate::task_file::TaskFile;
use class_read::is_class_path;
use std::alloc::{AllocError, Global};
use tree_value::{Bytes, Path};

fn is_class_path_of(path: &[u8], class: u8) -> bool
    ensures { result ≡ bytes_eq path.now (class_path class) }
{
    path == [
        b'c', b'l', b'a', b's', b's', b'e', b's', b'/', class, b'.', b'c', b'l', b'a', b's', b's',
    ]
    .as_slice()
}

fn is_in_place(path: &[u8], file: Option<TaskFile>) -> bool
    ensures { result ≡ is_in_place path.now file }
{
    match file {
        Some(file) => is_class_path_of(path, file.class),
        None => false,
    }
}

fn is_out_of_place(file: &(Path, Bytes)) -> bool
    ensures { result ≡ is_out_of_place file.now }
{
    let path = file.0.as_slice();
    is_class_path(path) && !is_in_place(path, TaskFile::read(file.1.as_slice()))
}

/// The first class file that is neither small nor linked, or isn't the one of its class.
pub fn first_out_of_place(files: &[(Path, Bytes)]) -> Option<&(Path, Bytes)>
    ensures { option_copied result ≡ first_out_of_place files.now }
{
    files.iter().find(|file| is_out_of_place(file))
}

/// The task of each class file.
#[tactic(auto, unfolding(crate::specs::Graphs::task_files))]
pub fn task_files(alloc: Global, files: &[(Path, Bytes)]) -> Result<Vec<TaskFile>, AllocError>
    ensures { IfOk result (λ tasks. tasks.items ≡ task_files files.now) }
{
    files
        .iter()
        .filter(|file| is_class_path(file.0.as_slice()))
        .filter_map(|file| TaskFile::read(file.1.as_slice()))
        .collect(alloc)
}
