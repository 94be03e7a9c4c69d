ghost use Rattle.std.specs.Prelude.{◌≡◌, [], None, Some, if◌then◌else◌, slice_get, OnOk, OnErr};
ghost use Rattle.std.specs.Option.{option_copied, option_map};
ghost use Rattle.std.specs.List.{IsDistinct};
ghost use Rattle.std.specs.Map.{lookup, keys_of};
ghost use Rattle.std.specs.Map.Iter.{deref_pair};
ghost use Rattle.indexmap.specs.IndexMap.{insert_entry, shift_remove_entry};

use cbt_base::NoMemory;
use indexmap::{IndexMap, map};
use std::alloc::Global;
use std::hash::Hash;
use std::marker::Model;

/// A map that keeps the order in which its keys came first. Contracts see the list of its pairs, in
/// that order.
#[derive(Drop)]
pub struct Ordered<K: Eq + Hash, V> {
    pairs: IndexMap<K, V>,
}

impl<K: Eq + Hash, V> Model for Ordered<K, V> {
    ghost use Rattle.std.specs.Prelude.{List};
    ghost use Rattle.std.specs.Coded.{coded_list, coded×};

    ghost Value = { List (K × V) };

    ghost coded = { coded_list (coded× K.code V.code) };

    ghost view = { λ m. m.pairs.entries };
}

impl<K: Eq + Hash, V> Ordered<K, V> {
    /// The empty map, which takes no memory.
    pub fn new(alloc: Global) -> Ordered<K, V>
        ensures { result ≡ [] }
    {
        Ordered {
            pairs: IndexMap::new(alloc),
        }
    }

    pub fn get(&self, key: &K) -> Option<&V>
        ensures { option_copied result ≡ lookup (K.eq key.now) self.now }
    {
        self.pairs.get(key)
    }

    /// The pair at a place of the order, from 0.
    pub fn at(&self, at: usize) -> Option<(&K, &V)>
        ensures { option_map deref_pair result ≡ slice_get self.now at }
    {
        self.pairs.get_index(at)
    }

    /// The pairs, in their order.
    pub fn iter(&self) -> map::Iter<'_, K, V>
        ensures pairs { result ≡ self.now }
        ensures distinct { IsDistinct K.eq (keys_of self.now) }
    {
        self.pairs.iter()
    }
}

impl<K: Eq + Hash + Drop, V: Drop> Ordered<K, V> {
    /// Sets the value at a key. A new key goes last, and one that is there keeps its place.
    pub fn insert(&mut self, key: K, value: V) -> Result<(), NoMemory>
        ensures ok { OnOk result (self.new ≡ insert_entry K.eq self.old key value) }
        ensures found { OnOk result ((q : K) → lookup (K.eq q) self.new ≡ (if K.eq key q then Some value else lookup (K.eq q) self.old)) }
        ensures err { OnErr result (self.new ≡ self.old) }
    {
        self.pairs.insert(key, value)?;
        Ok(())
    }

    /// Takes a key away; those behind it close up.
    pub fn remove(&mut self, key: &K)
        ensures rest { self.new ≡ shift_remove_entry (K.eq key.now) self.old }
        ensures found { (q : K) → lookup (K.eq q) self.new ≡ (if K.eq key.now q then None else lookup (K.eq q) self.old) }
    {
        self.pairs.shift_remove(key);
    }
}
