ghost use Rattle.std.specs.Prelude.{◌≡◌, ◌≤◌, ◌==◌, [], length};
ghost use Rattle.lists.specs.Lists.{placed, first_of, rest_of, push_answer, pushed};
ghost use Rattle.lists.specs.Blanks.{filled};

use crate::blank::Blank;
use std::alloc::AllocError;
use std::marker::Model;

/// A list of up to `N` items, in as many places. A contract sees its items, in order.
pub struct FixedList<T: Blank, const N: usize> {
    count: usize,
    places: [T; N],
}

impl<T: Blank, const N: usize> Model for FixedList<T, N> {
    ghost use Rattle.std.specs.Prelude.{List, length, take};
    ghost use Rattle.std.specs.Coded.{coded_list};
    ghost use Rattle.std.proofs.Common.{ap₂};
    ghost use Rattle.lists.specs.Blanks.{filled, Filled, length-take-filled, filled-take};

    ghost Value = { List T };

    ghost coded = { coded_list T.code };

    ghost view = { λ l. take l.count l.places };

    ghost invariant = { λ l. Filled T.blank N l.count l.places };

    ghost inverse = { λ xs. record { count = length xs; places = filled T.blank N xs } };

    ghost inverse_ok = { λ l h. ap₂ (λ c ps. record { count = c; places = ps }) (length-take-filled h) (filled-take h) };
}

// By hand: a derived clone would be as like its source as the clones of `T` are, and no more.
impl<T: Blank, const N: usize> Clone for FixedList<T, N> {
    ghost is_clone = { λ x y. y ≡ x };

    ghost is_infallible = { λ _. Unit {0} };

    fn clone(&self) -> Result<Self, AllocError> {
        Ok(*self)
    }
}

impl<T: Blank, const N: usize> Copy for FixedList<T, N> {}

impl<T: Blank, const N: usize> FixedList<T, N> {
    /// A list with no item.
    pub fn new() -> Self
        ensures { result ≡ [] }
    {
        FixedList {
            count: 0,
            places: [T::blank(); N],
        }
    }

    /// A list of these items; none where there are more than places.
    pub fn from_slice(items: &[T]) -> Option<Self>
        ensures { result ≡ placed N items.now }
    {
        let count = items.len();
        if count > N {
            return None;
        }
        let mut places = [T::blank(); N];
        places[..count].copy_from_slice(items);
        Some(FixedList { count, places })
    }

    /// How many items there are.
    pub fn len(&self) -> usize
        ensures value { result ≡ length self.now }
        ensures within { result ≤ N }
    {
        self.as_slice().len()
    }

    /// Whether there is no item.
    pub fn is_empty(&self) -> bool
        ensures value { result ≡ (length self.now == 0) }
        ensures within { length self.now ≤ N }
    {
        self.as_slice().is_empty()
    }

    /// The items, in order.
    pub fn as_slice(&self) -> &[T]
        ensures items { result.now ≡ self.now }
        ensures within { length self.now ≤ N }
    {
        &self.places[..self.count]
    }

    /// All places: the items, and blanks behind them.
    pub fn places(&self) -> &[T]
        ensures { result.now ≡ filled T.blank N self.now }
    {
        &self.places[..]
    }

    /// The first item.
    pub fn front(&self) -> Option<T>
        ensures answer { result ≡ first_of self.now }
        ensures within { length self.now ≤ N }
    {
        self.as_slice().first().copied()
    }

    /// Lets an item in behind the others; hands it back, with nothing changed, where all places are taken.
    pub fn push(&mut self, item: T) -> Result<(), T>
        ensures answer { result ≡ push_answer N self.old item }
        ensures state { self.new ≡ pushed N self.old item }
        ensures within { length self.new ≤ N }
    {
        if self.count >= N {
            return Err(item);
        }
        self.places[self.count] = item;
        self.count += 1;
        Ok(())
    }

    /// Lets the first item out.
    pub fn pop(&mut self) -> Option<T>
        ensures answer { result ≡ first_of self.old }
        ensures state { self.new ≡ rest_of self.old }
        ensures within { length self.new ≤ N }
    {
        let first = self.front()?;
        self.places[0] = T::blank();
        self.places.rotate_left(1);
        self.count -= 1;
        Some(first)
    }

    /// Lets all items out.
    pub fn clear(&mut self)
        ensures { self.new ≡ [] }
    {
        for place in &mut self.places[..self.count] {
            *place = T::blank();
        }
        self.count = 0;
    }
}
