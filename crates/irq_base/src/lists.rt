//! Lists of rows, events, entries and bytes, with room for one more only where memory is there.
ghost use Rattle.std.specs.Prelude.{◌≡◌, [], ◌∷◌, ◌++◌, ◌<◌, length, slice_get, Some, OnOk, OnErr};

use crate::call::{Call, Caller, Row};
use crate::event::Event;
use crate::reply::Reply;
use std::alloc::Global;
use std::marker::Model;

/// Memory ran out.
#[derive(Clone, Copy, Debug, PartialEq, Eq)]
pub struct NoMemory;

/// A list that grows at its end.
#[derive(Drop)]
pub struct Items<T> {
    items: Vec<T>,
}

/// Rows of a routing table.
pub type Rows = Items<Row>;

/// The events of a call.
pub type EventList = Items<Event>;

/// The entries of a board, in their order.
pub type History = Items<Entry>;

/// An entry of a history: who asked what, the answer, and what happened in the call.
#[derive(Drop)]
pub struct Entry {
    pub caller: Caller,
    pub call: Call,
    pub reply: Reply,
    pub events: EventList,
}

impl<T> Model for Items<T> {
    ghost use Rattle.std.specs.Prelude.{List};

    ghost Value = { List T };

    ghost view = { λ r. r.items.items };
}

impl<T> Items<T> {
    /// The list with nothing in it. It takes no memory.
    pub fn empty(alloc: Global) -> Items<T>
        ensures { result ≡ [] }
    {
        Items {
            items: Vec::new(alloc),
        }
    }

    /// How many items there are.
    pub fn len(&self) -> usize
        ensures { result ≡ length self.now }
    {
        self.items.len()
    }

    /// The k-th item, from 0.
    pub fn at(&self, k: usize) -> &T
        requires { k < length self.now }
        ensures { slice_get self.now k ≡ Some result.now }
    {
        &self.items[k]
    }
}

impl<T: Drop> Items<T> {
    /// Puts the item at the end; without memory the list stays.
    pub fn push(&mut self, item: T) -> Result<(), NoMemory>
        ensures ok { OnOk result (self.new ≡ self.old ++ item ∷ []) }
        ensures err { OnErr result (self.new ≡ self.old) }
    {
        match self.items.push(item) {
            Ok(()) => Ok(()),
            Err(_) => Err(NoMemory),
        }
    }
}

/// Bytes of a text.
#[derive(Drop)]
pub struct Bytes {
    bytes: Vec<u8>,
}

impl Model for Bytes {
    ghost use Rattle.std.specs.Prelude.{ℕ, List};

    ghost Value = { List ℕ };

    ghost view = { λ b. b.bytes.items };
}

impl Bytes {
    /// These bytes.
    pub fn of(bytes: Vec<u8>) -> Bytes
        ensures { result ≡ bytes.items }
    {
        Bytes { bytes }
    }

    /// The bytes as a slice.
    pub fn as_slice(&self) -> &[u8]
        ensures { result.now ≡ self.now }
    {
        self.bytes.as_slice()
    }
}
