// A short list that needs no allocator.
ghost use Rattle.std.specs.Prelude.{◌≡◌, ◌<◌, ◌≤◌, [], ◌∷◌, ◌++◌, length, take};
ghost use Rattle.std.specs.List.{slice_get};
ghost use Rattle.march.specs.Lists.{listed, capacity};

// At most `N` items: the first `count` of `items`, and all of them where `count` is larger. It is passed and kept as a
// plain copy, which the kit's vector of a fixed room is not.
#[derive(Clone, Copy)]
pub struct Few<T, const N: usize> {
    pub items: [T; N],
    pub count: u8,
}

// No item; the places past the count hold the item's own default.
impl<T: Copy + Default, const N: usize> Default for Few<T, N> {
    ghost is_default = { λ few. listed few ≡ [] };

    fn default() -> Few<T, N> {
        Few {
            items: [T::default(); N],
            count: 0,
        }
    }
}

impl<T: Copy, const N: usize> Few<T, N> {
    // These items, in their order, as far as there is room for them.
    pub fn of(items: &[T]) -> Few<T, N>
    where
        T: Default,
        ensures as_many_as_fit { listed result ≡ take (capacity N) items.now }
        ensures counted { result.count ≡ length (listed result) }
    {
        let count = items.len().min(N).min(255);
        let mut kept = [T::default(); N];
        kept[..count].copy_from_slice(&items[..count]);
        Few {
            items: kept,
            count: count as u8,
        }
    }

    // The item at a place, counted from 0.
    pub fn get(&self, at: u8) -> Option<T>
        ensures item_at_place { result ≡ slice_get (listed self.now) at }
    {
        self.as_slice().get(at as usize).copied()
    }

    // The items, in their order.
    pub fn as_slice(&self) -> &[T]
        ensures all_items { result.now ≡ listed self.now }
    {
        &self.items[..self.len() as usize]
    }

    // How many items there are.
    pub fn len(&self) -> u8
        ensures item_count { result ≡ length (listed self.now) }
    {
        (self.count as usize).min(N) as u8
    }

    // Adds an item at the end, where there is room for it.
    pub fn push(&mut self, item: T)
        ensures one_more_at_the_end { length (listed self.old) < capacity N → listed self.new ≡ listed self.old ++ (item ∷ []) }
        ensures full_list_stays { capacity N ≤ length (listed self.old) → self.new ≡ self.old }
    {
        let len = self.len();
        if (len as usize) < N && len < 255 {
            self.items[len as usize] = item;
            self.count = len + 1;
        }
    }
}
