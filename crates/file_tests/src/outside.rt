//! What a script does to the files themselves, past the adapters.

use crate::stopped::Stopped;
use io_real::MAX_FILE_LEN;
use questions::bytes_of;
use std::alloc::Global;
use std::fs;
use std::fs::Files;

/// The folder in which a script works.
pub const ROOT: &str = "root";

/// The folder, new and empty.
pub fn begin(rt: &HostRuntime) -> Result<(), Stopped> {
    if fs::exists(rt, ROOT)? {
        fs::remove_dir_all(rt, ROOT)?;
    }
    Ok(fs::create_dir(rt, ROOT)?)
}

pub fn end(rt: &HostRuntime) -> Result<(), Stopped> {
    Ok(fs::remove_dir_all(rt, ROOT)?)
}

// The name that a word stands for.
fn name_of(alloc: Global, word: &str) -> Result<String, Stopped> {
    String::from_utf8(bytes_of(alloc, word)?).map_err(|_| Stopped::BadQuestion)
}

fn place(alloc: Global, name: &str) -> Result<String, Stopped> {
    Ok(format!(in alloc; "{ROOT}/{name}")?)
}

fn make_folder(rt: &HostRuntime, name: &str) -> Result<(), Stopped> {
    Ok(fs::create_dir_all(rt, place(rt.alloc(), name)?.as_str())?)
}

// A file of its name's own bytes, and the folders on the way to it.
fn make_file(rt: &HostRuntime, word: &str) -> Result<(), Stopped> {
    let name = name_of(rt.alloc(), word)?;
    let name = name.as_str();
    if let Some((folder, _)) = name.rsplit_once('/') {
        make_folder(rt, folder)?;
    }
    Ok(fs::write(rt, place(rt.alloc(), name)?.as_str(), name)?)
}

// A file of one byte more than an adapter reads.
fn make_large(rt: &HostRuntime, name: &str) -> Result<(), Stopped> {
    let place = place(rt.alloc(), name)?;
    Ok(fs::create(rt, place.as_str())?.set_len(MAX_FILE_LEN + 1)?)
}

// A link, as its name, `=` and where it leads.
fn make_link(rt: &HostRuntime, word: &str) -> Result<(), Stopped> {
    let Some((name, target)) = word.split_once('=') else {
        return Err(Stopped::BadQuestion);
    };
    Ok(rt.symlink(target, place(rt.alloc(), name)?.as_str())?)
}

fn stands(rt: &HostRuntime, name: &str) -> Result<&'static str, Stopped> {
    if fs::exists(rt, place(rt.alloc(), name)?.as_str())? {
        Ok("there")
    } else {
        Ok("gone")
    }
}

/// What is made, or whether something stands there.
pub fn answer(rt: &HostRuntime, call: &str, word: &str) -> Result<&'static str, Stopped> {
    match call {
        "folder" => make_folder(rt, word)?,
        "file" => make_file(rt, word)?,
        "large" => make_large(rt, word)?,
        "link" => make_link(rt, word)?,
        "stands" => return stands(rt, word),
        _ => return Err(Stopped::BadQuestion),
    }
    Ok("made")
}
