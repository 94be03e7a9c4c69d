ghost use Rattle.std.specs.Prelude.{◌≡◌, [], ◌∷◌, ◌↔◌, length, IsTrue, IsSome, IfOk, OnOk, OnErr};
ghost use Rattle.std.specs.Option.{option_copied, option_copied_mut};
ghost use Rattle.std.specs.Borrow.{sem};
ghost use Rattle.cbt_base.specs.Keyed.{at_key, with_pair, without_key, Rises};
ghost use Rattle.cbt_base.specs.MapLent.{lends_value};

use crate::memory::{Duplicate, NoMemory};
use std::alloc::Global;
use std::collections::{BTreeMap, btree_map};
use std::marker::Model;

/// An ordered map that contracts see as the list of its pairs, rising by key.
#[derive(Drop)]
pub struct Map<K: Ord, V> {
    pairs: BTreeMap<K, V>,
}

impl<K: Ord, V> Model for Map<K, V> {
    ghost use Rattle.std.specs.Prelude.{List};
    ghost use Rattle.std.specs.Coded.{coded_list, coded×};

    ghost Value = { List (K × V) };

    ghost coded = { coded_list (coded× K.code V.code) };

    ghost view = { λ m. m.pairs.entries };
}

impl<K: Ord, V> Map<K, V> {
    /// The empty map, which takes no memory.
    pub fn new(alloc: Global) -> Map<K, V>
        ensures { result ≡ [] }
    {
        Map {
            pairs: BTreeMap::new(alloc),
        }
    }

    /// How many keys it has.
    pub fn len(&self) -> usize
        ensures len { result ≡ length self.now }
        ensures rises { Rises K.cmp self.now }
    {
        self.pairs.len()
    }

    pub fn is_empty(&self) -> bool
        ensures { IsTrue result ↔ (self.now ≡ []) }
    {
        self.pairs.is_empty()
    }

    pub fn get(&self, key: &K) -> Option<&V>
        ensures { option_copied result ≡ at_key K.cmp self.now key.now }
    {
        self.pairs.get(key)
    }

    pub fn contains_key(&self, key: &K) -> bool
        ensures { IsTrue result ↔ IsSome (at_key K.cmp self.now key.now) }
    {
        self.pairs.contains_key(key)
    }

    /// Lends the value at a key.
    pub fn get_mut(&mut self, key: &K) -> Option<&mut V>
        ensures* writes_back { sem 𝓛 (lends_value K.row V.row K.Ord self.entry key.now result) }
        ensures value { option_copied_mut result ≡ at_key K.cmp self.old key.now }
    {
        self.pairs.get_mut(key)
    }

    /// The pairs, rising by key.
    pub fn iter(&self) -> btree_map::Iter<'_, K, V>
        ensures pairs { result ≡ self.now }
        ensures rises { Rises K.cmp self.now }
    {
        self.pairs.iter()
    }
}

impl<K: Ord + Drop, V: Drop> Map<K, V> {
    /// Sets the value at a key. A key that is there stays as it is, and its value goes.
    pub fn insert(&mut self, key: K, value: V) -> Result<(), NoMemory>
        ensures ok { OnOk result (self.new ≡ with_pair K.cmp self.old key value) }
        ensures err { OnErr result (self.new ≡ self.old) }
    {
        self.pairs.insert(key, value)?;
        Ok(())
    }

    /// Takes the value at a key away.
    pub fn remove(&mut self, key: &K) -> Option<V>
        ensures value { result ≡ at_key K.cmp self.old key.now }
        ensures rest { self.new ≡ without_key K.cmp self.old key.now }
    {
        self.pairs.remove(key)
    }
}

impl<K: Ord + Duplicate, V: Duplicate> Duplicate for Map<K, V> {
    fn copy(&self, alloc: Global) -> Result<Map<K, V>, NoMemory> {
        let mut second = Map::new(alloc);
        for (key, value) in self.iter() {
            second.insert(key.copy(alloc)?, value.copy(alloc)?)?;
        }
        Ok(second)
    }
}
