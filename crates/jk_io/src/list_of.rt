//! `ListOf<T>`: the small type over `Vec` behind each type whose name ends in `List`.
ghost use Rattle.std.specs.Prelude.{◌≡◌, List, [], ◌∷◌, ◌++◌, length, IfOk, IfErr, OnOk, OnErr, IfSome, IfNone, IsTrue, ◌↔◌, ◌<◌, slice_get, slice_set};
ghost use Rattle.std.specs.Option.{option_copied};

use crate::failures::NoMemory;
use std::alloc::{AllocFailed, Global};
use std::marker::Model;

/// Items in order. A contract sees a list of them.
#[derive(Debug, Drop)]
pub struct ListOf<T> {
    items: Vec<T>,
}

impl<T> Model for ListOf<T> {
    ghost Value = { List T };

    ghost view = { λ l. l.items.items };
}

/// Numbers in order.
pub type NumberList = ListOf<u64>;

/// The pool sizes of one balancer's members, in order.
pub type SizeList = ListOf<u32>;

/// For each balancer, in order, the pool sizes of its members.
pub type SizeTable = ListOf<SizeList>;

impl<T> ListOf<T> {
    /// No items. No memory is taken.
    pub fn new(alloc: Global) -> ListOf<T>
        ensures { result ≡ [] }
    {
        ListOf {
            items: Vec::new(alloc),
        }
    }

    /// The items of a `Vec`, which it gives back by `into_vec`. Where a later push must not fail, push into the `Vec`.
    pub fn from_vec(items: Vec<T>) -> ListOf<T>
        ensures { result ≡ items.items }
    {
        ListOf { items }
    }

    pub fn into_vec(self) -> Vec<T>
        ensures { result.items ≡ self }
    {
        self.items
    }

    pub fn len(&self) -> usize
        ensures { result ≡ length self.now }
    {
        self.items.len()
    }

    pub fn is_empty(&self) -> bool
        ensures { IsTrue result ↔ (self.now ≡ []) }
    {
        self.items.is_empty()
    }

    pub fn as_slice(&self) -> &[T]
        ensures { result.now ≡ self.now }
    {
        self.items.as_slice()
    }

    /// The item at a place, from 0.
    pub fn get(&self, place: usize) -> Option<&T>
        ensures { option_copied result ≡ slice_get self.now place }
    {
        self.items.get(place)
    }

    /// Adds an item at the end. Where memory is wanted the item comes back in the error.
    pub fn push(&mut self, item: T) -> Result<(), AllocFailed<T>>
        ensures ok { OnOk result (self.new ≡ self.old ++ item ∷ []) }
        ensures err { OnErr result (self.new ≡ self.old) }
        ensures back { IfErr result (λ e. e.value ≡ item) }
    {
        self.items.push(item)
    }

    /// Puts an item in the place of another.
    pub fn set(&mut self, place: usize, item: T)
    where
        T: Drop,
        requires { place < length self.old }
        ensures { self.new ≡ slice_set self.old place item }
    {
        self.items[place] = item;
    }

    /// Takes out the last item.
    pub fn pop(&mut self) -> Option<T>
        ensures some { IfSome result (λ item. self.old ≡ self.new ++ item ∷ []) }
        ensures none { IfNone result ((self.old ≡ []) × (self.new ≡ [])) }
    {
        self.items.pop()
    }

    /// The allocator that the list keeps.
    pub fn allocator(&self) -> Global {
        *self.items.allocator()
    }
}

impl<T: Copy> ListOf<T> {
    /// An equal list.
    pub fn copy(&self) -> Result<ListOf<T>, NoMemory>
        ensures { IfOk result (λ l. l ≡ self.now) }
    {
        Ok(ListOf {
            items: Vec::from_slice(self.allocator(), self.items.as_slice())?,
        })
    }
}
