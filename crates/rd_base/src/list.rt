//! A list that contracts see as the list of its elements.
ghost use Rattle.std.specs.Prelude.{ℕ, ◌≡◌, ◌==◌, ◌<◌, ◌≤◌, ◌+◌, ◌-◌, [], ◌∷◌, ◌++◌, length, OnOk, OnErr, IfOk, slice_get, slice_set, take, drop, replicate, map, option_to_list, Some, MatchOption};
ghost use Rattle.std.specs.Borrow.{Bor, MutBor};

use crate::memory::Memory;
use std::alloc::Global;
use std::marker::Model;

/// A list of values. Contracts see it as the list of its elements, whatever room it has.
#[derive(Debug, Drop)]
pub struct ListOf<T> {
    items: Vec<T>,
}

impl<T> Model for ListOf<T> {
    ghost use Rattle.std.specs.Prelude.{List};

    ghost Value = { List T };

    ghost view = { λ s. s.items.items };
}

impl<T> ListOf<T> {
    /// A list of nothing, which takes no memory.
    pub fn new(alloc: Global) -> ListOf<T>
        ensures { result ≡ [] }
    {
        ListOf {
            items: Vec::new(alloc),
        }
    }

    /// A list of nothing with room for so many elements.
    pub fn with_room(alloc: Global, room: usize) -> Result<ListOf<T>, Memory>
        ensures { IfOk result (λ list. list ≡ []) }
    {
        Ok(ListOf {
            items: Vec::with_capacity(alloc, room)?,
        })
    }

    /// How many elements there are.
    pub fn len(&self) -> usize
        ensures { result ≡ length self.now }
    {
        self.items.len()
    }

    /// Whether there is no element.
    pub fn is_empty(&self) -> bool
        ensures { result ≡ (length self.now == 0) }
    {
        self.items.is_empty()
    }

    /// The elements as a slice.
    pub fn as_slice(&self) -> &[T]
        ensures { result.now ≡ self.now }
    {
        self.items.as_slice()
    }

    /// The element at a place, counted from 0.
    pub fn get(&self, i: usize) -> &T
        requires { i < length self.now }
        ensures { slice_get self.now i ≡ Some result.now }
    {
        &self.items[i]
    }

    /// Changes each element in its place.
    pub fn change_each<F: Fn(&mut T)>(&mut self, change: F)
        requires { (k : ℕ) (x : MutBor T) → slice_get self.old k ≡ Some x.now → F.pre change x }
        ensures { (changed : T → T) → ((x y : MutBor T) → F.post change x tt y → y.now ≡ changed x.now) → self.new ≡ map changed self.old }
    {
        change_each(&mut self.items[..], change);
    }
}

impl<T: Drop> ListOf<T> {
    /// Adds an element at the end.
    pub fn push(&mut self, value: T) -> Result<(), Memory>
        ensures ok { OnOk result (self.new ≡ self.old ++ value ∷ []) }
        ensures err { OnErr result (self.new ≡ self.old) }
    {
        self.items.push(value)?;
        Ok(())
    }

    /// Adds the value at the end, if there is one.
    pub fn push_some(&mut self, value: Option<T>) -> Result<(), Memory>
        ensures ok { OnOk result (self.new ≡ self.old ++ option_to_list value) }
        ensures err { OnErr result (self.new ≡ self.old) }
    {
        match value {
            Some(value) => self.push(value),
            None => Ok(()),
        }
    }

    /// Takes the last element away, and None exactly where there is none.
    pub fn pop(&mut self) -> Option<T>
        ensures { MatchOption result ((self.old ≡ []) × (self.new ≡ [])) (λ last. self.old ≡ self.new ++ last ∷ []) }
    {
        self.items.pop()
    }

    /// Takes all elements away and keeps the room.
    pub fn clear(&mut self)
        ensures { self.new ≡ [] }
    {
        self.items.clear();
    }

    /// Keeps the first `n` elements.
    pub fn truncate(&mut self, n: usize)
        ensures { self.new ≡ take n self.old }
    {
        self.items.truncate(n);
    }
}

impl<T: Copy> ListOf<T> {
    /// A list of these elements.
    pub fn from_slice(alloc: Global, items: &[T]) -> Result<ListOf<T>, Memory>
        ensures { IfOk result (λ list. list ≡ items.now) }
    {
        Ok(ListOf {
            items: Vec::from_slice(alloc, items)?,
        })
    }

    /// A list of `n` copies of a value.
    pub fn filled(alloc: Global, n: usize, value: T) -> Result<ListOf<T>, Memory>
        ensures { IfOk result (λ list. list ≡ replicate n value) }
    {
        let mut list = ListOf::new(alloc);
        list.resize(n, value)?;
        Ok(list)
    }

    /// The element at a place, counted from 0.
    pub fn at(&self, i: usize) -> T
        requires { i < length self.now }
        ensures { slice_get self.now i ≡ Some result }
    {
        self.items[i]
    }

    /// Puts another element at a place, counted from 0.
    pub fn set(&mut self, i: usize, value: T)
        requires { i < length self.old }
        ensures { self.new ≡ slice_set self.old i value }
    {
        self.items[i] = value;
    }

    /// Puts these elements in place of those from a place on, counted from 0.
    pub fn overwrite(&mut self, from: usize, items: &[T])
        requires { from + length items.now ≤ length self.old }
        ensures { self.new ≡ take from self.old ++ (items.now ++ drop (from + length items.now) self.old) }
    {
        self.items[from..from + items.len()].copy_from_slice(items);
    }

    /// Puts the same value at each place of a part.
    pub fn fill(&mut self, from: usize, to: usize, value: T)
        requires order { from ≤ to }
        requires end { to ≤ length self.old }
        ensures { self.new ≡ take from self.old ++ (replicate (to - from) value ++ drop to self.old) }
    {
        self.items[from..to].fill_with(|| value);
    }

    /// Adds these elements at the end.
    pub fn extend_from_slice(&mut self, more: &[T]) -> Result<(), Memory>
        ensures ok { OnOk result (self.new ≡ self.old ++ more.now) }
        ensures err { OnErr result (self.new ≡ self.old) }
    {
        self.items.extend_from_slice(more)?;
        Ok(())
    }

    /// Adds `n` copies of a value at the end.
    pub fn push_copies(&mut self, n: u64, value: T) -> Result<(), Memory>
        ensures { OnOk result (self.new ≡ self.old ++ replicate n value) }
    {
        for _k in 0..n {
            self.push(value)?;
        }
        Ok(())
    }

    /// Cuts the list to `n` elements, or fills it up to `n` with copies of a value.
    pub fn resize(&mut self, n: usize, value: T) -> Result<(), Memory>
        ensures ok { OnOk result (self.new ≡ take n self.old ++ replicate (n - length self.old) value) }
        ensures err { OnErr result (self.new ≡ self.old) }
    {
        self.items.resize(n, value)?;
        Ok(())
    }
}

/// What `make` makes of each element of a list, in the list's order.
pub fn mapped<S, T: Drop, F: Fn(&S) -> T>(
    alloc: Global,
    items: &[S],
    make: F,
) -> Result<ListOf<T>, Memory>
    requires { (i : ℕ) (x : Bor S) → slice_get items.now i ≡ Some x.now → F.pre make x }
    ensures { (made : S → T) → ((x : Bor S) (y : T) → F.post make x y → y ≡ made x.now) → IfOk result (λ list. list ≡ map made items.now) }
{
    let mut list = ListOf::with_room(alloc, items.len())?;
    for item in items {
        list.push(make(item))?;
    }
    Ok(list)
}

/// Changes each element of a list in its place.
pub fn change_each<T, F: Fn(&mut T)>(list: &mut [T], change: F)
    requires { (k : ℕ) (x : MutBor T) → slice_get list.old k ≡ Some x.now → F.pre change x }
    ensures { (changed : T → T) → ((x y : MutBor T) → F.post change x tt y → y.now ≡ changed x.now) → list.new ≡ map changed list.old }
{
    for i in 0..list.len() {
        change(&mut list[i]);
    }
}
