//! A ring of places, for every kind of element: the places, the place of the first item and how many are held.
//! Past the last place it goes on at place 0, so places that were freed are used again.
//! By a rule of the project (docs/DECISIONS.md, "Language forms") the functions at the end do this on a lent slice, a plain head and a plain length; `Ring` holds all three.
ghost use Rattle.std.specs.Prelude.{◌≡◌, ◌+◌, ◌-◌, ◌<◌, ◌≤◌, [], ◌∷◌, ◌++◌, length, drop, slice_get};
ghost use Rattle.queue.specs.Ring.{held};

use std::marker::Model;

/// A queue of at most `N` items, which never moves them.
#[derive(Drop)]
pub struct Ring<T, const N: usize> {
    slots: [T; N],
    head: usize,
    len: usize,
}

/// Seen as the list of the items held, the first first.
impl<T, const N: usize> Model for Ring<T, N> {
    ghost use Rattle.std.specs.Prelude.{List, ◌<◌, ◌≤◌};
    ghost use Rattle.queue.specs.Ring.{held};

    ghost Value = { List T };

    ghost view = { λ r. held r.slots r.head r.len };

    ghost invariant = { λ r. (r.head < N) × (r.len ≤ N) };
}

impl<T: Copy, const N: usize> Ring<T, N> {
    /// An empty ring, its places filled with `filler`.
    pub fn new(filler: T) -> Self
        requires { 0 < N }
        ensures { result ≡ [] }
    {
        Ring {
            slots: [filler; N],
            head: 0,
            len: 0,
        }
    }

    pub fn len(&self) -> usize
        ensures is { result ≡ length self.now }
        ensures within { length self.now ≤ N }
    {
        self.len
    }

    pub fn push_back(&mut self, item: T)
        requires { length self.old < N }
        ensures { self.new ≡ self.old ++ item ∷ [] }
    {
        add_back(&mut self.slots, self.head, self.len, item);
        self.len += 1;
    }

    /// The first item, if there is one.
    pub fn front(&self) -> Option<T>
        ensures { result ≡ slice_get self.now 0 }
    {
        if self.len == 0 {
            None
        } else {
            Some(front(&self.slots, self.head, self.len))
        }
    }

    /// Takes out the first item, if there is one.
    pub fn pop_front(&mut self) -> Option<T>
        ensures says { result ≡ slice_get self.old 0 }
        ensures does { self.new ≡ drop 1 self.old }
    {
        let first = self.front()?;
        self.head = next_head(&self.slots, self.head, self.len);
        self.len -= 1;
        Some(first)
    }

    pub fn clear(&mut self)
        ensures { self.new ≡ [] }
    {
        self.len = 0;
    }
}

/// Adds `item` behind the `len` items held.
#[tactic(auto, using(crate::proofs::Turns::added_straight, crate::proofs::Turns::added_past_end))]
pub fn add_back<T: Copy>(slots: &mut [T], head: usize, len: usize, item: T)
    requires { (head < length slots.old) × (len < length slots.old) }
    ensures { held slots.new head (len + 1) ≡ held slots.old head len ++ (item ∷ []) }
{
    let straight = slots.len() - head;
    let place = if len < straight {
        head + len
    } else {
        len - straight
    };
    slots[place] = item;
}

/// The first of the `len` items held.
#[tactic(auto, using(crate::proofs::Turns::first))]
pub fn front<T: Copy>(slots: &[T], head: usize, len: usize) -> T
    requires { (head < length slots.now) × ((0 < len) × (len ≤ length slots.now)) }
    ensures { held slots.now head len ≡ result ∷ drop 1 (held slots.now head len) }
{
    slots[head]
}

/// The head once the first of the `len` items held is gone.
#[tactic(auto, using(crate::proofs::Turns::rest_straight, crate::proofs::Turns::rest_past_end))]
pub fn next_head<T>(slots: &[T], head: usize, len: usize) -> usize
    requires { (head < length slots.now) × ((0 < len) × (len ≤ length slots.now)) }
    ensures inside { result < length slots.now }
    ensures held { held slots.now result (len - 1) ≡ drop 1 (held slots.now head len) }
{
    if head + 1 < slots.len() { head + 1 } else { 0 }
}
