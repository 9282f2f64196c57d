//! Lists and boxes that contracts see without their place in memory, and what a search answers.
//!
//! A `Vec` is seen with its capacity and its place in memory, so two of them with equal items are two
//! values. [`Items`] is seen as the list alone: a type that contracts compare, such as the code of a
//! program or a tree of its source, holds its lists in it. [`Boxed`] is to a `Box` what [`Items`] is to
//! a `Vec`. A type may hold itself through both. Everything else in this workspace may stand on this
//! crate.
#![tactic(auto)]

ghost use Rattle.std.specs.Prelude.{◌≡◌, ◌==◌, [], length, IfOk};

pub use boxed::Boxed;
use std::alloc::{AllocError, Global};
use std::marker::Model;

mod boxed;

/// Items in order. Contracts see the list of them.
#[derive(Debug, Drop)]
pub struct Items<T> {
    list: Vec<T>,
}

impl<T> Model for Items<T> {
    ghost use Rattle.std.specs.Prelude.{List};
    ghost use Rattle.std.specs.Coded.{coded_list};

    ghost Value = { List T };

    ghost coded = { coded_list T.code };

    ghost view = { λ items. items.list.items };
}

impl<T> Items<T> {
    /// No items. Takes no memory.
    pub fn new(alloc: Global) -> Items<T>
        ensures { result ≡ [] }
    {
        Items {
            list: Vec::new(alloc),
        }
    }

    /// The items of this list.
    pub fn from_list(list: Vec<T>) -> Items<T>
        ensures { result ≡ list.items }
    {
        Items { list }
    }

    /// The items, in order.
    #[inline]
    pub fn as_slice(&self) -> &[T]
        ensures { result.now ≡ self.now }
    {
        self.list.as_slice()
    }

    /// How many there are.
    #[inline]
    pub fn len(&self) -> usize
        ensures { result ≡ length self.now }
    {
        self.list.len()
    }

    /// Whether there are none.
    #[inline]
    pub fn is_empty(&self) -> bool
        ensures { result ≡ (length self.now == 0) }
    {
        self.list.is_empty()
    }

    /// The list, to change it.
    pub fn into_list(self) -> Vec<T>
        ensures { result.items ≡ self }
    {
        let Items { list } = self;
        list
    }
}

impl<T: Copy> Items<T> {
    /// The same items once more. Takes time and memory linear in their number.
    pub fn copy(&self) -> Result<Items<T>, AllocError>
        ensures { IfOk result (λ items. items ≡ self.now) }
    {
        let list = Vec::from_slice(*self.list.allocator(), self.as_slice())?;
        Ok(Items { list })
    }
}
