//! A list that needs no memory for its first item: most requests name one partition.
ghost use Rattle.std.specs.Prelude.{◌≡◌, ◌⊎◌, ◌++◌, ◌∷◌, [], IfOk, OnErr, OnOk};

use kbytes::{List, NoMemory};
use std::alloc::Global;
use std::marker::Model;

/// A list that grows at its end, and keeps its item in place while it has but one. A contract sees its items.
#[derive(Drop)]
pub(crate) struct Few<T> {
    alloc: Global,
    one: Option<[T; 1]>,
    more: Vec<T>,
}

impl<T> Model for Few<T> {
    ghost use Rattle.std.specs.Prelude.{List as Items};
    ghost use Rattle.shared_calls.specs.FewItems.{few_items};

    ghost Value = { Items T };

    ghost view = { λ f. few_items f.one f.more.items };
}

// These items as a list.
fn listed<T: Drop>(alloc: Global, items: Vec<T>) -> Result<List<T>, NoMemory>
    ensures { IfOk result (λ list. list ≡ items.items) }
{
    let mut list = List::new(alloc);
    for item in items {
        list.push(item)?;
    }
    Ok(list)
}

impl<T> Few<T> {
    /// The empty list. It takes no memory.
    pub(crate) fn new(alloc: Global) -> Few<T>
        ensures { result ≡ [] }
    {
        Few {
            alloc,
            one: None,
            more: Vec::new(alloc),
        }
    }

    /// Puts an item at the end. If memory runs out, the items may be lost.
    pub(crate) fn push(&mut self, item: T) -> Result<(), NoMemory>
    where
        T: Drop,
        ensures ok { OnOk result (self.new ≡ self.old ++ item ∷ []) }
        ensures err { OnErr result ((self.new ≡ self.old) ⊎ (self.new ≡ [])) }
    {
        if let Some(one) = self.one.take() {
            self.more.clear();
            self.more = Vec::from_array(self.alloc, one)?;
            return Ok(self.more.push(item)?);
        }
        if self.more.is_empty() {
            self.one = Some([item]);
            return Ok(());
        }
        Ok(self.more.push(item)?)
    }

    pub(crate) fn as_slice(&self) -> &[T]
        ensures { result.now ≡ self.now }
    {
        match &self.one {
            Some(one) => one,
            None => self.more.as_slice(),
        }
    }

    /// The same items in memory of their own.
    pub(crate) fn into_list(self, alloc: Global) -> Result<List<T>, NoMemory>
    where
        T: Drop,
        ensures { IfOk result (λ list. list ≡ self) }
    {
        let Few { one, more, .. } = self;
        match one {
            Some(one) => listed(alloc, Vec::from_array(alloc, one)?),
            None => listed(alloc, more),
        }
    }
}
