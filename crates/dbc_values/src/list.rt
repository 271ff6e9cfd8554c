//! Lists of values that keep the bounds of their type.
ghost use Rattle.std.specs.Prelude.{◌≡◌, ◌==◌, ◌<◌, ◌≤◌, [], ◌∷◌, ◌++◌, All, length, map, insert, remove, slice_set, IfOk, OnOk};
ghost use Rattle.std.specs.Prelude.{OnErr};
ghost use Rattle.std.specs.Fn.{CalledAt};
ghost use Rattle.std.specs.List.Retain.{IsFiltered};
ghost use Rattle.std.specs.Slice.Iter.{iter_rest};
ghost use Rattle.std.specs.Iterator.Adapters.{IterYieldsInOrder};

use crate::memory::Memory;
use std::alloc::Global;
use std::marker::Model;
use std::slice::Iter;

/// A type each of whose values satisfies a condition.
pub trait Checked: Drop {
    // What every value is.
    ghost IsValid: { Self → Type 0 };
}

/// A value that can be copied, unless memory runs out.
pub trait Copied: Checked {
    /// An equal value.
    fn copy(&self) -> Result<Self, Memory>
        ensures { IfOk result (λ copy. copy ≡ self.now) };
}

/// A change that can be applied to each item of a list.
pub trait Rewrite<T: Checked>: Drop {
    // The item, changed.
    ghost rewritten: { Self → T → T };

    /// Changes the item in place.
    fn rewrite(&self, item: &mut T)
        requires { T.IsValid item.old }
        ensures new { item.new ≡ rewritten self.now item.old }
        ensures valid { T.IsValid item.new };
}

/// A list, which contracts see as the list of its items. It keeps the allocator with which it was made.
#[derive(Drop)]
pub struct List<T: Checked> {
    items: Vec<T>,
}

impl<T: Checked> Model for List<T> {
    ghost use Rattle.std.specs.Prelude.{List as Items, All};

    ghost Value = { Items T };

    ghost view = { λ list. list.items.items };

    ghost invariant = { λ list. All T.IsValid list.items.items };
}

impl<T: Checked> List<T> {
    /// The empty list. It allocates nothing.
    pub fn new(alloc: Global) -> List<T>
        ensures { result ≡ [] }
    {
        List {
            items: Vec::new(alloc),
        }
    }

    /// The empty list, with space for this many items.
    pub fn with_capacity(alloc: Global, count: usize) -> Result<List<T>, Memory>
        ensures { IfOk result (λ list. list ≡ []) }
    {
        let items = Vec::with_capacity(alloc, count)?;
        Ok(List { items })
    }

    /// The list of a vector's items.
    pub fn from_vec(items: Vec<T>) -> List<T>
        requires { All T.IsValid items.items }
        ensures { result ≡ items.items }
    {
        List { items }
    }

    /// The items, as a slice.
    pub fn as_slice(&self) -> &[T]
        ensures value { result.now ≡ self.now }
        ensures valid { All T.IsValid self.now }
    {
        self.items.as_slice()
    }

    /// How many items there are.
    pub fn len(&self) -> usize
        ensures { result ≡ length self.now }
    {
        self.items.len()
    }

    /// Whether there is no item.
    pub fn is_empty(&self) -> bool
        ensures { result ≡ (length self.now == 0) }
    {
        self.items.is_empty()
    }

    /// Appends an item. An `Err` changes nothing.
    pub fn push(&mut self, item: T) -> Result<(), Memory>
        requires { T.IsValid item }
        ensures ok { OnOk result (self.new ≡ self.old ++ item ∷ []) }
        ensures err { OnErr result (self.new ≡ self.old) }
        ensures valid { All T.IsValid self.new }
    {
        self.items.push(item)?;
        Ok(())
    }

    /// Inserts an item before the one at the index, or after all others. An `Err` changes nothing.
    pub fn insert(&mut self, index: usize, item: T) -> Result<(), Memory>
        requires index { index ≤ length self.old }
        requires item { T.IsValid item }
        ensures ok { OnOk result (self.new ≡ insert self.old index item) }
        ensures err { OnErr result (self.new ≡ self.old) }
        ensures valid { All T.IsValid self.new }
    {
        self.items.insert(index, item)?;
        Ok(())
    }

    /// Removes the item at the index.
    pub fn remove(&mut self, index: usize)
        requires { index < length self.old }
        ensures new { self.new ≡ remove self.old index }
        ensures valid { All T.IsValid self.new }
    {
        self.items.remove(index);
    }

    /// Replaces the item at the index.
    pub fn set(&mut self, index: usize, item: T)
        requires index { index < length self.old }
        requires item { T.IsValid item }
        ensures new { self.new ≡ slice_set self.old index item }
        ensures valid { All T.IsValid self.new }
    {
        self.items[index] = item;
    }

    /// Keeps the items for which the closure returns `true`, in their order, and removes the others.
    pub fn retain<F: FnMut(&T) -> bool>(&mut self, keeps: F)
        requires { F.IsAlwaysCallable keeps }
        ensures kept { IsFiltered (CalledAt F.FnMut) keeps self.old self.new }
        ensures valid { All T.IsValid self.new }
    {
        self.items.retain(keeps);
    }

    /// Applies the change to each item.
    pub fn rewrite_all<R: Rewrite<T>>(&mut self, change: &R)
        ensures new { self.new ≡ map (R.rewritten change.now) self.old }
        ensures valid { All T.IsValid self.new }
    {
        rewrite_items(self.items.as_mut_slice(), change);
    }

    /// Releases the capacity reserved for further items.
    pub fn shrink_to_fit(&mut self)
        ensures new { self.new ≡ self.old }
        ensures valid { All T.IsValid self.new }
    {
        self.items.shrink_to_fit();
    }

    /// The items in order.
    pub fn iter(&self) -> Iter<'_, T>
        ensures rest { iter_rest result ≡ self.now }
        ensures in_order { IterYieldsInOrder T }
        ensures valid { All T.IsValid self.now }
    {
        self.items.iter()
    }
}

// Applies the change to each item.
fn rewrite_items<T: Checked, R: Rewrite<T>>(items: &mut [T], change: &R)
    requires { All T.IsValid items.old }
    ensures new { items.new ≡ map (R.rewritten change.now) items.old }
    ensures valid { All T.IsValid items.new }
{
    for item in items.iter_mut() {
        change.rewrite(item);
    }
}

impl<T: Checked> Checked for List<T> {
    ghost IsValid = { All T.IsValid };
}

impl<T: Copied> Copied for List<T> {
    fn copy(&self) -> Result<List<T>, Memory> {
        let mut items = Vec::with_capacity(*self.items.allocator(), self.items.len())?;
        for item in self.items.as_slice() {
            items.push(item.copy()?)?;
        }
        Ok(List { items })
    }
}
