//! Builds a map from entries in path order; their paths are moved into it.

ghost use Rattle.std.specs.Prelude.{◌≡◌, ◌++◌, ◌<◌, [], ◌∷◌, length, List, IfOk, OnOk, OnErr, is_ok, if◌then◌else◌};
ghost use Rattle.std.specs.List.{zip};
ghost use Rattle.acl_names.specs.Paths.{PathOf};
ghost use Rattle.path_map.specs.Entries.{IsInOrder, all_in};
ghost use Rattle.path_map.specs.Inner.{AreGathered};

use crate::chunk::{Chunk, MAX_ENTRIES};
use crate::map::PathMap;
use acl_names::Path;
use std::alloc::{AllocError, Global};
use std::marker::Model;
use std::mem;
use std::rc::Rc;

/// A map under construction: the entries so far, in path order.
#[derive(Drop)]
pub struct PathMapBuilder<V: Copy> {
    chunks: Vec<Rc<Chunk<V>>>,
    paths: Vec<Path>,
    values: Vec<V>,
}

impl<V: Copy> Model for PathMapBuilder<V> {
    ghost Value = { List (PathOf × V) };

    ghost view = { λ b. all_in b.chunks.items ++ zip b.paths.items b.values.items };

    ghost invariant = { λ b. AreGathered (all_in b.chunks.items) b.paths.items b.values.items };
}

/// Adds paths and as many values as one chunk.
fn push_chunk<V: Copy>(
    alloc: Global,
    chunks: &mut Vec<Rc<Chunk<V>>>,
    paths: Vec<Path>,
    values: Vec<V>,
) -> Result<(), AllocError>
    requires gathered { AreGathered (all_in chunks.old.items) paths.items values.items }
    requires some { 0 < length values.items }
    ensures added { OnOk result (all_in chunks.new.items ≡ all_in chunks.old.items ++ zip paths.items values.items) }
    ensures kept { OnErr result (all_in chunks.new.items ≡ all_in chunks.old.items) }
{
    let chunk = Chunk::new(Rc::new(alloc, paths)?, values);
    chunks.push(Rc::new(alloc, chunk)?)?;
    Ok(())
}

/// Makes a chunk of the paths and values, if they fill one.
fn make_room<V: Copy>(
    alloc: Global,
    chunks: &mut Vec<Rc<Chunk<V>>>,
    paths: &mut Vec<Path>,
    values: &mut Vec<V>,
) -> Result<(), AllocError>
    requires { AreGathered (all_in chunks.old.items) paths.old.items values.old.items }
    ensures gathered { AreGathered (all_in chunks.new.items) paths.new.items values.new.items }
    ensures same { OnOk result (all_in chunks.new.items ++ zip paths.new.items values.new.items
        ≡ all_in chunks.old.items ++ zip paths.old.items values.old.items) }
    ensures room { OnOk result (length values.new.items < 32) }
{
    if values.len() < MAX_ENTRIES {
        return Ok(());
    }
    let no_paths = Vec::with_capacity(alloc, MAX_ENTRIES)?;
    let no_values = Vec::with_capacity(alloc, MAX_ENTRIES)?;
    push_chunk(
        alloc,
        chunks,
        mem::replace(paths, no_paths),
        mem::replace(values, no_values),
    )?;
    Ok(())
}

/// Adds a path and a value, or neither.
fn push_both<V: Copy>(
    paths: &mut Vec<Path>,
    values: &mut Vec<V>,
    path: Path,
    value: V,
) -> Result<(), AllocError>
    ensures paths { paths.new.items ≡ (if is_ok result then paths.old.items ++ path ∷ [] else paths.old.items) }
    ensures values { values.new.items ≡ (if is_ok result then values.old.items ++ value ∷ [] else values.old.items) }
{
    values.push(value)?;
    match paths.push(path) {
        Ok(()) => Ok(()),
        Err(error) => {
            let _value = values.pop();
            Err(error.into())
        }
    }
}

impl<V: Copy> PathMapBuilder<V> {
    /// Returns a builder without entries.
    pub fn new(alloc: Global) -> PathMapBuilder<V>
        ensures { result ≡ [] }
    {
        PathMapBuilder {
            chunks: Vec::new(alloc),
            paths: Vec::new(alloc),
            values: Vec::new(alloc),
        }
    }

    /// Adds an entry, whose path is after those of all entries so far. If memory runs out, entries may be missing.
    pub fn push(&mut self, alloc: Global, path: Path, value: V) -> Result<(), AllocError>
        requires { IsInOrder (self.old ++ (path, value) ∷ []) }
        ensures { OnOk result (self.new ≡ self.old ++ (path, value) ∷ []) }
    {
        make_room(alloc, &mut self.chunks, &mut self.paths, &mut self.values)?;
        push_both(&mut self.paths, &mut self.values, path, value)?;
        Ok(())
    }

    /// Returns the map of the entries.
    pub fn finish(self, alloc: Global) -> Result<PathMap<V>, AllocError>
        ensures { IfOk result (λ map. map ≡ self) }
    {
        let PathMapBuilder {
            mut chunks,
            paths,
            values,
        } = self;
        if !values.is_empty() {
            push_chunk(alloc, &mut chunks, paths, values)?;
        }
        PathMap::of_chunks(alloc, &chunks)
    }
}
