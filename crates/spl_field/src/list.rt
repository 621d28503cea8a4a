// Lists, for contracts that see a list.
ghost use Rattle.std.specs.Prelude.{◌≡◌, ◌<◌, ◌≤◌, ◌↔◌, [], ◌∷◌, ◌++◌, length, ◌==◌, IfOk, IfSome, OnOk, OnErr};
ghost use Rattle.std.specs.Prelude.{slice_index_or, slice_set, take, All};
ghost use Rattle.theory_rings.specs.Ops.{IsElem};

use crate::field::{Field, NoMemory};
use std::alloc::Global;
use std::marker::Model;

/// A list. It keeps the allocator that it grows by. Contracts see it as a list of its items.
pub struct List<T: Drop> {
    items: Vec<T>,
}

// (one proof for all functions that drop a list, in place of one in each)
impl<T: Drop> Drop for List<T> {
    fn drop(self) {
        let List { items } = self;
    }
}

impl<T: Drop> Model for List<T> {
    ghost use Rattle.std.specs.Prelude.{List};

    ghost Value = { List T };

    ghost view = { λ v. v.items.items };
}

impl<T: Drop> List<T> {
    /// The empty list. It takes no memory.
    pub fn new(alloc: Global) -> Self
        ensures { result ≡ [] }
    {
        List {
            items: Vec::new(alloc),
        }
    }

    /// The list of these items.
    pub fn from_vec(items: Vec<T>) -> Self
        ensures { result ≡ items.items }
    {
        List { items }
    }

    /// Appends the item. Where memory is wanting the list stays as it was, and the item is dropped.
    pub fn push(&mut self, item: T) -> Result<(), NoMemory>
        ensures ok { OnOk result (self.new ≡ self.old ++ item ∷ []) }
        ensures err { OnErr result (self.new ≡ self.old) }
    {
        self.items.push(item)?;
        Ok(())
    }

    /// The number of items.
    pub fn len(&self) -> usize
        ensures { result ≡ length self.now }
    {
        self.items.len()
    }

    /// Whether there is no item.
    pub fn is_empty(&self) -> bool
        ensures { result ≡ (length self.now == 0) }
    {
        self.items.is_empty()
    }

    /// The item at place i, counted from 0; None exactly where i is past the end.
    pub fn at(&self, i: usize) -> Option<&T>
        ensures none { (result ≡ None) ↔ (length self.now ≤ i) }
        ensures some { IfSome result (λ r. (i < length self.now) × (r.now ≡ slice_index_or self.now i r.now)) }
    {
        self.items.get(i)
    }

    /// Puts the item at place i.
    pub fn set(&mut self, i: usize, item: T)
        requires { i < length self.old }
        ensures { self.new ≡ slice_set self.old i item }
    {
        self.items[i] = item;
    }

    /// All items in order.
    pub fn as_slice(&self) -> &[T]
        ensures { result.now ≡ self.now }
    {
        self.items.as_slice()
    }

    /// Drops the items from place n on.
    pub fn truncate(&mut self, n: usize)
        ensures { self.new ≡ take n self.old }
    {
        self.items.truncate(n);
    }
}

/// A list of numbers below 256.
pub type Codes = List<u8>;

/// A list of elements of a field; whose elements they are is a condition of the calls that take it.
pub type Vector<F> = List<<F as Field>::Elem>;

impl<T: Drop + Copy> List<T> {
    /// The list of these items. The one fault is want of memory.
    pub fn from_slice(alloc: Global, items: &[T]) -> Result<Self, NoMemory>
        ensures { IfOk result (λ v. v ≡ items.now) }
    {
        Ok(List {
            items: Vec::from_slice(alloc, items)?,
        })
    }
}

impl<T: Drop> List<T> {
    /// An equal list of elements of f. The one fault is want of memory.
    pub fn copy<F: Field<Elem = T>>(&self, alloc: Global, f: &F) -> Result<Self, NoMemory>
        requires { All (IsElem (F.ops f.now)) self.now }
        ensures { IfOk result (λ v. v ≡ self.now) }
    {
        let mut items = Vec::with_capacity(alloc, self.items.len())?;
        for item in &self.items {
            items.push(f.copy(alloc, item)?)?;
        }
        Ok(List { items })
    }
}
