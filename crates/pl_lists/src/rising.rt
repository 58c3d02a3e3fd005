ghost use Rattle.std.specs.Prelude.{◌≡◌, ◌↔◌, ◌≤◌, [], IfErr, IfOk, IsTrue, OnOk, OnErr, is_ok, length, slice_get};
ghost use Rattle.std.specs.BTreeSet.{insert_key};
ghost use Rattle.std.specs.List.{AllByRecursion, insert, list_any};
ghost use Rattle.std.specs.List.Sorted.{IsStrictlySortedBy};
ghost use Rattle.std.specs.Option.{option_copied};
ghost use Rattle.std.specs.Ordering.{is_eq};
ghost use Rattle.std.specs.declared.cmp.Ordering.TheVariants.{Less};

use crate::Memory;
use std::alloc::Global;
use std::cmp::Ordering;
use std::marker::Model;

/// Items in rising order, none twice. Contracts see the list of them.
#[derive(Debug, Drop)]
pub struct Rising<T: Ord> {
    items: Vec<T>,
}

impl<T: Ord> Model for Rising<T> {
    ghost use Rattle.std.specs.Prelude.{List};
    ghost use Rattle.std.specs.List.Sorted.{IsStrictlySortedBy};

    ghost Value = { List T };

    ghost view = { λ list. list.items.items };

    ghost invariant = { λ list. IsStrictlySortedBy T.cmp list.items.items };
}

impl<T: Ord> Rising<T> {
    pub fn new(alloc: Global) -> Rising<T>
        ensures { result ≡ [] }
    {
        Rising {
            items: Vec::new(alloc),
        }
    }

    pub fn len(&self) -> usize
        ensures { result ≡ length self.now }
    {
        self.items.len()
    }

    pub fn is_empty(&self) -> bool
        ensures { IsTrue result ↔ (self.now ≡ []) }
    {
        self.items.is_empty()
    }

    /// The item at an index, counted from 0; none past the last.
    pub fn get(&self, n: usize) -> Option<&T>
        ensures { option_copied result ≡ slice_get self.now n }
    {
        self.items.get(n)
    }

    pub fn as_slice(&self) -> &[T]
        ensures items { result.now ≡ self.now }
        ensures rising { IsStrictlySortedBy T.cmp self.now }
    {
        self.items.as_slice()
    }

    /// Whether an item is there.
    pub fn contains(&self, item: &T) -> bool
        ensures { result ≡ list_any (λ x. is_eq (T.cmp item.now x)) self.now }
    {
        self.search(item).is_ok()
    }

    // That an item is there, or else where it would go.
    fn search(&self, item: &T) -> Result<(), usize>
        ensures found { OnOk result (insert_key T.cmp self.now item.now ≡ self.now) }
        ensures bound { IfErr result (λ n. n ≤ length self.now) }
        ensures missed { IfErr result (λ n. insert self.now n item.now ≡ insert_key T.cmp self.now item.now) }
        ensures member { is_ok result ≡ list_any (λ x. is_eq (T.cmp item.now x)) self.now }
        ensures rising { IsStrictlySortedBy T.cmp (insert_key T.cmp self.now item.now) }
    {
        if self.ends_below(item) {
            return Err(self.len());
        }
        match self.items.binary_search(item) {
            Ok(_) => Ok(()),
            Err(index) => Err(index),
        }
    }

    // Whether each item comes before this one, by the last of them.
    fn ends_below(&self, item: &T) -> bool
        ensures below { IsTrue result → AllByRecursion (λ x. T.cmp x item.now ≡ Less) self.now }
        ensures rising { IsStrictlySortedBy T.cmp self.now }
    {
        match self.items.last() {
            Some(last) => last.cmp(item) == Ordering::Less,
            None => true,
        }
    }
}

impl<T: Ord + Copy> Rising<T> {
    /// A list of its own with the same items.
    pub fn copied(&self, alloc: Global) -> Result<Rising<T>, Memory>
        ensures { IfOk result (λ copy. copy ≡ self.now) }
    {
        let items = Vec::from_slice(alloc, self.items.as_slice())?;
        Ok(Rising { items })
    }
}

impl<T: Ord + Drop> Rising<T> {
    /// Puts an item where it goes, unless it is there already.
    pub fn insert(&mut self, item: T) -> Result<(), Memory>
        ensures ok { OnOk result (self.new ≡ insert_key T.cmp self.old item) }
        ensures err { OnErr result (self.new ≡ self.old) }
    {
        match self.search(&item) {
            Err(index) => Ok(self.items.insert(index, item)?),
            Ok(()) => Ok(()),
        }
    }
}
