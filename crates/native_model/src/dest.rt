//! The files of a task's dest.

ghost use Rattle.std.specs.Prelude.{◌≡◌, ◌≤◌, [], nat_eq, nat_le, if◌then◌else◌, IfOk, OnOk, OnErr};
ghost use Rattle.std.specs.List.{list_any, starts_with};
ghost use Rattle.std.specs.Option.{option_copied};
ghost use Rattle.std.specs.FinMap.Entries as entries;
ghost use Rattle.tree_value.specs.Trees.{path_cmp};
ghost use Rattle.native_model.specs.Outside.{dest_bytes, most_dest_bytes};

use crate::place::Place;
use std::alloc::{AllocError, Global};
use std::collections::BTreeMap;
use std::marker::Model;
use tree_value::Bytes;

/// The most bytes of the paths and contents of all files.
const MOST_BYTES: u64 = 16_777_216;

/// Files by path, and how many bytes their paths and contents are.
#[derive(Drop)]
pub struct Dest {
    files: BTreeMap<Place, Bytes>,
    bytes: u64,
}

impl Model for Dest {
    ghost use Rattle.std.specs.Prelude.{◌≡◌, ◌≤◌, ℕ, List};
    ghost use Rattle.std.specs.List.Sorted.{IsStrictlySortedBy};
    ghost use Rattle.std.specs.Map.{keys_of};
    ghost use Rattle.tree_value.specs.Trees.{path_cmp};
    ghost use Rattle.native_model.specs.Outside.{dest_bytes, most_dest_bytes};

    ghost Value = { List (List ℕ × List ℕ) };

    ghost view = { λ dest. dest.files.entries };

    ghost invariant = { λ dest. (dest.bytes ≡ dest_bytes dest.files.entries)
        × (dest.bytes ≤ most_dest_bytes)
        × IsStrictlySortedBy path_cmp (keys_of dest.files.entries) };
}

impl Dest {
    pub fn new(alloc: Global) -> Dest
        ensures { result ≡ [] }
    {
        Dest {
            files: BTreeMap::new(alloc),
            bytes: 0,
        }
    }

    /// The bytes of the file at a place.
    #[tactic(auto, using(crate::proofs::Files::files))]
    pub fn file(&self, place: &Place) -> Option<&Bytes>
        ensures { option_copied result ≡ entries.find path_cmp place.now self.now }
    {
        self.files.get(place)
    }

    /// Whether the bytes suffice for a file more, or for another one at its place.
    #[tactic(auto, using(crate::proofs::Files::rooms))]
    fn has_room(&self, place: &Place, content: &Bytes) -> bool
        ensures { result ≡ nat_le (dest_bytes (entries.put path_cmp place.now content.now self.now)) most_dest_bytes }
    {
        let room = MOST_BYTES - self.bytes;
        let more = content.len() as u64;
        match self.files.get(place) {
            Some(before) => more.saturating_sub(room) <= before.len() as u64,
            None => {
                let path = place.len() as u64;
                path <= room && more <= room - path
            }
        }
    }

    #[tactic(auto, using(crate::proofs::Files::rooms))]
    fn insert(&mut self, place: Place, content: Bytes) -> Result<(), AllocError>
        requires { dest_bytes (entries.put path_cmp place content self.old) ≤ most_dest_bytes }
        ensures ok { OnOk result (self.new ≡ entries.put path_cmp place content self.old) }
        ensures err { OnErr result (self.new ≡ self.old) }
    {
        let path = place.len() as u64;
        let more = content.len() as u64;
        match self.files.insert(place, content) {
            Ok(Some(before)) => {
                self.bytes = self.bytes + more - before.len() as u64;
                Ok(())
            }
            Ok(None) => {
                self.bytes = self.bytes + path + more;
                Ok(())
            }
            Err(_) => Err(AllocError),
        }
    }

    /// Puts a file at its place. False where the bytes of all files would pass the limit, and then all stays.
    pub(crate) fn put(&mut self, place: Place, content: Bytes) -> Result<bool, AllocError>
        ensures fits { IfOk result (λ is. is ≡ nat_le (dest_bytes (entries.put path_cmp place content self.old)) most_dest_bytes) }
        ensures put { IfOk result (λ is. self.new ≡ (if is then entries.put path_cmp place content self.old else self.old)) }
        ensures err { OnErr result (self.new ≡ self.old) }
    {
        if !self.has_room(&place, &content) {
            return Ok(false);
        }
        self.insert(place, content)?;
        Ok(true)
    }
}

impl Dest {
    /// Whether the path of a file begins with some bytes. One look-up, since the files are in order.
    pub fn has_front(&self, front: &Place) -> bool
        ensures { result ≡ list_any (λ file. starts_with nat_eq file.0 front.now) self.now }
    {
        match self.files.range(front..).next() {
            Some((place, _)) => place.as_slice().starts_with(front.as_slice()),
            None => false,
        }
    }
}
