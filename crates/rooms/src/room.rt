// Items in the order in which they came, up to as many as there are places.
ghost use Rattle.std.specs.Prelude.{◌≤◌};

use std::alloc::AllocError;
use std::fmt;

// Kept an array beside a length: the library's `ArrayVec` is no copy type, and what a line, a card or a list holds is copied.
pub struct Room<T, const N: usize> {
    places: [T; N],
    // how many of them hold an item, from the first on
    len: usize,
    ghost inside: { len ≤ N },
}

// There is no place for what was to come in: nothing came in.
#[derive(Clone, Copy, PartialEq, Eq, Debug)]
pub struct Full;

impl<T: Copy + Default, const N: usize> Room<T, N> {
    ghost use Rattle.std.specs.Prelude.{◌≡◌, []};
    ghost use Rattle.rooms.specs.Held.{held};

    // Without items.
    pub fn new() -> Room<T, N>
        ensures { held result ≡ [] }
    {
        Room {
            places: [T::default(); N],
            len: 0,
        }
    }
}

impl<T: Copy, const N: usize> Room<T, N> {
    ghost use Rattle.std.specs.Prelude.{◌≡◌, ◌<◌, ◌≤◌, ◌↔◌, [], ◌∷◌, ◌++◌, length, take, IsSome};
    ghost use Rattle.std.specs.Option.{option_to_list};
    ghost use Rattle.rooms.specs.Held.{held, LetsIn};

    // The first `len` of the items; all of them where they are not as many.
    pub fn first_of(places: [T; N], len: usize) -> Room<T, N>
        ensures { held result ≡ take len places }
    {
        Room {
            places,
            len: len.min(N),
        }
    }

    pub fn as_slice(&self) -> &[T]
        ensures value { result.now ≡ held self.now }
        ensures inside { length result.now ≤ N }
    {
        &self.places[..self.len]
    }

    // One item more, behind the others.
    pub fn push(&mut self, item: T) -> Result<(), Full>
        ensures { LetsIn N (held self.old) (item ∷ []) result (held self.new) }
    {
        if self.len == N {
            return Err(Full);
        }
        self.places[self.len] = item;
        self.len += 1;
        Ok(())
    }

    // Takes out the last item, if there is one.
    pub fn pop(&mut self) -> Option<T>
        ensures items { held self.old ≡ held self.new ++ option_to_list result }
        ensures variant { IsSome result ↔ (0 < length (held self.old)) }
    {
        let at = self.len.checked_sub(1)?;
        self.len = at;
        Some(self.places[at])
    }

    // All of these items, behind the others, or none of them.
    pub fn extend_from_slice(&mut self, items: &[T]) -> Result<(), Full>
        ensures { LetsIn N (held self.old) items.now result (held self.new) }
    {
        if items.len() > N - self.len {
            return Err(Full);
        }
        let after = self.len + items.len();
        let places = &mut self.places[..];
        places[self.len..after].copy_from_slice(items);
        self.len = after;
        Ok(())
    }
}

impl<T: Copy, const N: usize> Clone for Room<T, N> {
    ghost use Rattle.std.specs.Prelude.{◌≡◌, ⊤};

    // it is the same room, and there always is one
    ghost is_clone = { λ a b. a ≡ b };

    ghost is_infallible = { λ _. ⊤ };

    fn clone(&self) -> Result<Room<T, N>, AllocError> {
        Ok(*self)
    }
}

impl<T: Copy, const N: usize> Copy for Room<T, N> {}

impl<T: Copy + PartialEq, const N: usize> PartialEq for Room<T, N> {
    ghost use Rattle.std.specs.Cmp.{on_per};
    ghost use Rattle.std.specs.Cmp.Lexicographic.{pointwise, lists_per};
    ghost use Rattle.rooms.specs.Held.{held};

    ghost eq = { λ a b. pointwise T.eq (held a) (held b) };

    ghost laws = { on_per held (lists_per T.laws) };

    fn eq(&self, other: &Room<T, N>) -> bool {
        self.as_slice() == other.as_slice()
    }
}

impl<T: Copy + Eq, const N: usize> Eq for Room<T, N> {
    ghost use Rattle.std.specs.Cmp.{on_equiv};
    ghost use Rattle.std.specs.Cmp.Lexicographic.{lists_equiv};
    ghost use Rattle.rooms.specs.Held.{held};

    ghost laws = { on_equiv held (lists_equiv T.Eq.laws) };
}

impl<T: Copy + fmt::Debug, const N: usize> fmt::Debug for Room<T, N> {
    fn fmt<W: fmt::Write>(&self, f: &mut fmt::Formatter<W>) -> fmt::Result {
        self.as_slice().fmt(f)
    }
}
