//! Maps whose keys are texts of one grammar.
ghost use Rattle.std.specs.Prelude.{◌≡◌, None, OnOk, OnErr, IfOk, List, ℕ, ◌<◌, ◌^◌};
ghost use Rattle.std.specs.Option.{option_copied};
ghost use Rattle.std.specs.FinMap as map;
ghost use Rattle.std.specs.Map.Iter.{ShowsInOrder, deref_pair};
ghost use Rattle.room_types.specs.Ascending.{AscendsBy};

use crate::fault::OutOfMemory;
use crate::text::{Grammar, Text};
use std::alloc::Global;
use std::collections::BTreeMap;
use std::collections::btree_map::Iter;
use std::marker::Model;

/// Types for which each clone equals the original. `Clone` alone does not promise this.
pub trait ExactClone: Clone {
    ghost same: { (x y : Self) → Self.is_clone x y → y ≡ x };
}

impl ExactClone for bool {
    ghost same = { λ x y h. h };
}

impl ExactClone for () {
    ghost same = { λ x y h. h };
}

/// A map whose keys are texts of the grammar `G`. Contracts treat a table as a finite map. A look-up takes time
/// logarithmic in the number of keys.
#[derive(Drop)]
pub struct Table<G: Grammar, V> {
    alloc: Global,
    tree: BTreeMap<Text<G>, V>,
}

impl<G: Grammar, V> Model for Table<G, V> {
    ghost use Rattle.std.specs.Coded.{coded_list, coded_ℕ};
    ghost use Rattle.std.specs.FinMap.{from_entries, code};
    ghost use Rattle.room_types.specs.Texts.{TextMap};

    ghost Value = { TextMap V };

    ghost coded = { code (coded_list coded_ℕ) V.code };

    ghost view = { λ a. from_entries a.tree.entries };
}

impl<G: Grammar, V> Table<G, V> {
    /// Makes an empty map. Does not allocate.
    pub fn new(alloc: Global) -> Self
        ensures { result ≡ map.empty }
    {
        Table {
            alloc,
            tree: BTreeMap::new(alloc),
        }
    }

    /// Returns the value of the key, or `None` if the map does not contain the key.
    pub fn get(&self, key: &Text<G>) -> Option<&V>
        ensures { option_copied result ≡ map.get self.now key.now }
    {
        self.tree.get(key)
    }

    /// Returns whether the map contains the key.
    pub fn contains_key(&self, key: &Text<G>) -> bool
        ensures { result ≡ map.contains_key self.now key.now }
    {
        self.get(key).is_some()
    }

    /// Returns the number of keys.
    pub fn len(&self) -> usize
        ensures { result ≡ map.len self.now }
    {
        self.tree.len()
    }

    /// Iterates over the entries by ascending key, in linear time.
    pub fn iter(&self) -> Iter<'_, Text<G>, V>
        ensures rest { result ≡ map.entries self.now }
        ensures runs { ShowsInOrder (deref_pair {K = List ℕ} {X = V}) }
        ensures ascending { AscendsBy (λ entry. entry.0) (map.entries self.now) }
        ensures fits { map.len self.now < 2 ^ 63 }
    {
        self.tree.iter()
    }
}

impl<G: Grammar, V: Drop> Table<G, V> {
    /// Sets the value of the key and drops the old value, if any. Allocates only if the key is new.
    ///
    /// # Errors
    ///
    /// `OutOfMemory` if the allocation fails. The key is then not in the map, and the map is unchanged.
    pub fn insert(&mut self, key: Text<G>, value: V) -> Result<(), OutOfMemory>
        ensures ok { OnOk result (self.new ≡ map.insert self.old key value) }
        ensures err { OnErr result (self.new ≡ self.old) }
        ensures absent { OnErr result (map.get self.old key ≡ None) }
    {
        self.tree.insert(key, value)?;
        Ok(())
    }

    /// Removes the key and its value. Leaves the map unchanged if it does not contain the key.
    pub fn remove(&mut self, key: &Text<G>)
        ensures { self.new ≡ map.remove self.old key.now }
    {
        let _ = self.tree.remove(key);
    }

    /// Removes the key and returns its value. Returns `None` if the map does not contain the key.
    pub fn take(&mut self, key: &Text<G>) -> Option<V>
        ensures value { result ≡ map.get self.old key.now }
        ensures gone { self.new ≡ map.remove self.old key.now }
    {
        self.tree.remove(key)
    }

    /// Removes all entries.
    pub fn clear(&mut self)
        ensures { self.new ≡ map.empty }
    {
        self.tree.clear();
    }
}

impl<G: Grammar, V: ExactClone> Table<G, V> {
    /// Copies the map. Does not allocate if the map is empty.
    pub fn copy(&self) -> Result<Self, OutOfMemory>
        ensures copy { IfOk result (λ copy. copy ≡ self.now) }
        ensures memory { OnErr result (0 < map.len self.now) }
    {
        if self.len() == 0 {
            return Ok(Table::new(self.alloc));
        }
        let tree = self.tree.clone()?;
        Ok(Table {
            alloc: self.alloc,
            tree,
        })
    }
}
