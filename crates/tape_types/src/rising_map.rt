//! A finite map kept in one vector sorted by key, and searched by halving.
ghost use Rattle.std.specs.Prelude.{◌≡◌, ◌↔◌, ◌-◌, ◌<◌, ◌≤◌, ℕ, length, take, drop, vec_len, vec_capacity};
ghost use Rattle.std.specs.Prelude.{IfOk, OnOk, OnErr, MatchOption, IsSome, IsTrue, Some, None};
ghost use Rattle.std.specs.Ordering.{nat_cmp};
ghost use Rattle.std.specs.FinMap as map;
ghost use Rattle.tape_types.specs.RisingEntries.{AllBelow, HasRisingKeys, IsPosition, StandsIn, keyed};
ghost use Rattle.tape_types.specs.RisingState.{RisingState, rising_code};

use std::alloc::{AllocError, Global};
use std::marker::Model;

/// A key that is a number.
pub trait NumberKey: Copy {
    /// The key's number.
    ghost number: { Self → ℕ };

    /// The key's number, as a `u32`.
    fn number(self) -> u32
        ensures value { result ≡ number self };
}

/// A map in one vector, sorted by key: a key is found by halving, and an entry above all others goes to the end.
#[derive(Drop)]
pub struct RisingMap<K: NumberKey, V> {
    entries: Vec<(K, V)>,
}

impl<K: NumberKey, V> Model for RisingMap<K, V> {
    ghost Value = { RisingState V };

    ghost coded = { rising_code V.code };

    ghost view = { λ r. record {
      values = map.from_entries (keyed K.number r.entries.items);
      spare = vec_capacity r.entries - vec_len r.entries;
    } };

    ghost invariant = { λ r. HasRisingKeys (keyed K.number r.entries.items) };
}

impl<K: NumberKey, V: Copy> RisingMap<K, V> {
    /// An empty map. It does not allocate.
    pub fn new(alloc: Global) -> Self
        ensures empty { result.values ≡ map.empty }
    {
        RisingMap {
            entries: Vec::new(alloc),
        }
    }

    /// The number of entries.
    pub fn len(&self) -> usize
        ensures length { result ≡ map.len self.now.values }
    {
        self.entries.len()
    }

    /// The entries by rising key.
    pub fn entries(&self) -> &[(K, V)]
        ensures entries { keyed K.number result.now ≡ map.entries self.now.values }
    {
        self.entries.as_slice()
    }

    /// The value of a key, if it has one.
    pub fn get(&self, key: K) -> Option<V>
        ensures value { result ≡ map.get self.now.values (K.number key) }
    {
        let index = locate(&self.entries, key)?;
        let (_, value) = self.entries[index];
        Some(value)
    }

    /// The index of a key's entry among `entries`, if the key has a value.
    pub fn position(&self, key: K) -> Option<usize>
        ensures position { MatchOption result (map.get self.now.values (K.number key) ≡ None)
            (λ i. StandsIn (K.number key) (map.entries self.now.values) i) }
    {
        locate(&self.entries, key)
    }

    /// The index of a key's entry, as `position` returns it. It looks at the index `hint` first, and searches only if another
    /// entry or none stands there.
    pub fn position_near(&self, key: K, hint: usize) -> Option<usize>
        ensures position { MatchOption result (map.get self.now.values (K.number key) ≡ None)
            (λ i. StandsIn (K.number key) (map.entries self.now.values) i) }
    {
        match self.entries.get(hint) {
            Some((at, _)) if at.number() == key.number() => Some(hint),
            _ => self.position(key),
        }
    }

    /// Inserts a value for a key that has none. It fails only if memory runs out, and leaves the map unchanged then. It
    /// allocates only if the vector is full.
    #[inline(always)]
    pub fn insert(&mut self, key: K, value: V) -> Result<(), AllocError>
        requires vacant { map.get self.old.values (K.number key) ≡ None }
        ensures ok { OnOk result (self.new.values ≡ map.insert self.old.values (K.number key) value) }
        ensures err { OnErr result (self.new ≡ self.old) }
        ensures full { OnErr result (self.old.spare ≡ 0) }
    {
        self.entries.reserve(1)?;
        if is_above_all(&self.entries, key) {
            self.entries.push_reserved((key, value));
        } else {
            let index = position_of(&self.entries, key);
            self.entries.insert(index, (key, value))?;
        }
        Ok(())
    }

    /// Inserts a value for a key that is above all others, without a search. It fails only if memory runs out, and leaves the
    /// map unchanged then. It allocates only if the vector is full.
    pub fn push(&mut self, key: K, value: V) -> Result<(), AllocError>
        requires above { AllBelow self.old.values (K.number key) }
        ensures ok { OnOk result (self.new.values ≡ map.insert self.old.values (K.number key) value) }
        ensures err { OnErr result (self.new ≡ self.old) }
        ensures full { OnErr result (self.old.spare ≡ 0) }
    {
        let entry = (key, value);
        self.entries.reserve(1)?;
        self.entries.push_reserved(entry);
        Ok(())
    }

    /// Replaces the value of a key that has one, and returns the former value. It does not allocate.
    pub fn set(&mut self, key: K, value: V) -> V
        requires present { IsSome (map.get self.old.values (K.number key)) }
        ensures former { Some result ≡ map.get self.old.values (K.number key) }
        ensures changed { self.new.values ≡ map.insert self.old.values (K.number key) value }
        ensures spare { self.new.spare ≡ self.old.spare }
    {
        let index = locate(&self.entries, key).unwrap();
        let (_, former) = self.entries[index];
        self.entries[index] = (key, value);
        former
    }

    /// Replaces the value of the entry at an index. It does not allocate.
    pub fn set_at(&mut self, index: usize, value: V)
        requires within { index < map.len self.old.values }
        ensures changed { (n : ℕ) → StandsIn n (map.entries self.old.values) index → self.new.values ≡ map.insert self.old.values n value }
        ensures spare { self.new.spare ≡ self.old.spare }
    {
        let (key, _) = self.entries[index];
        self.entries[index] = (key, value);
    }

    /// Removes a key and returns its value, if it has one. It does not allocate.
    pub fn remove(&mut self, key: K) -> Option<V>
        ensures value { result ≡ map.get self.old.values (K.number key) }
        ensures removed { self.new.values ≡ map.remove self.old.values (K.number key) }
    {
        let index = locate(&self.entries, key)?;
        let (_, value) = self.entries.remove(index);
        Some(value)
    }

    /// A copy of the entries from an index on, as a map of their own. It fails only if memory runs out.
    pub fn copy_from(&self, alloc: Global, index: usize) -> Result<Self, AllocError>
        requires { index ≤ map.len self.now.values }
        ensures entries { IfOk result (λ m. map.entries m.values ≡ drop index (map.entries self.now.values)) }
    {
        let entries = copied_from(alloc, &self.entries, index)?;
        Ok(RisingMap { entries })
    }

    /// Removes all entries from an index on. It does not allocate.
    pub fn truncate(&mut self, index: usize)
        ensures entries { map.entries self.new.values ≡ take index (map.entries self.old.values) }
    {
        self.entries.truncate(index);
    }
}

/// Whether a key is above the keys of all entries. The keys rise, so it compares with the last alone.
#[inline(always)]
fn is_above_all<K: NumberKey, V>(entries: &[(K, V)], key: K) -> bool
    requires rising { HasRisingKeys (keyed K.number entries.now) }
    ensures { IsTrue result ↔ IsPosition (K.number key) (keyed K.number entries.now) (length entries.now) }
{
    match entries.last() {
        Some((last, _)) => last.number() < key.number(),
        None => true,
    }
}

/// The index of a key among entries whose keys rise, or the index at which it would be inserted.
fn position_of<K: NumberKey, V>(entries: &[(K, V)], key: K) -> usize
    requires rising { HasRisingKeys (keyed K.number entries.now) }
    ensures { IsPosition (K.number key) (keyed K.number entries.now) result }
{
    let number = key.number();
    entries.partition_point(|(at, _)| at.number() < number)
}

/// The index of a key's entry, if it has a value.
fn locate<K: NumberKey, V>(entries: &[(K, V)], key: K) -> Option<usize>
    requires rising { HasRisingKeys (keyed K.number entries.now) }
    ensures { MatchOption result (map.get (map.from_entries {R = nat_cmp} (keyed K.number entries.now)) (K.number key) ≡ None)
        (λ i. StandsIn (K.number key) (keyed K.number entries.now) i) }
{
    let index = position_of(entries, key);
    match entries.get(index) {
        Some((at, _)) if at.number() == key.number() => Some(index),
        _ => None,
    }
}

/// A copy of the items of a slice from an index on. It fails only if memory runs out.
fn copied_from<T: Copy>(alloc: Global, items: &[T], index: usize) -> Result<Vec<T>, AllocError>
    requires { index ≤ length items.now }
    ensures { IfOk result (λ copied. copied.items ≡ drop index items.now) }
{
    Vec::from_slice(alloc, &items[index..])
}
