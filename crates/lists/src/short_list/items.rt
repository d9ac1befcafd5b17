ghost use Rattle.std.specs.Prelude.{◌≡◌, ◌++◌, [], ◌∷◌, length, is_ok, nat_lt, if◌then◌else◌};
ghost use Rattle.lists.specs.Listed.{listed};

use crate::short_list::{Full, ShortList};

impl<T: Copy + Default, const N: usize> ShortList<T, N> {
    // No item yet.
    pub fn new() -> ShortList<T, N>
        ensures { listed result ≡ [] }
    {
        ShortList {
            items: [T::default(); N],
            count: 0,
        }
    }
}

impl<T: Copy, const N: usize> ShortList<T, N> {
    // The items.
    pub fn as_slice(&self) -> &[T]
        ensures { result.now ≡ listed self.now }
    {
        &self.items[..self.count]
    }

    // How many there are.
    pub fn len(&self) -> usize
        ensures { result ≡ length (listed self.now) }
    {
        self.as_slice().len()
    }

    // Takes one item more, or stays as it is where it is full.
    pub fn push(&mut self, item: T) -> Result<(), Full>
        ensures answer { is_ok result ≡ nat_lt (length (listed self.old)) N }
        ensures after { listed self.new ≡ (if is_ok result then listed self.old ++ (item ∷ []) else listed self.old) }
    {
        if self.count >= N {
            return Err(Full);
        }
        self.items[self.count] = item;
        self.count += 1;
        Ok(())
    }
}
