ghost use Rattle.std.specs.Prelude.{◌≡◌, ◌≤◌, [], ◌∷◌, ◌++◌, length, if◌then◌else◌, Ok, Err, nat_lt};

use std::marker::Model;

// What stands in the places of a table that have no item.
pub trait Blank: Copy {
    ghost BLANK: { Self };

    const BLANK: Self;
}

// At most N items, in the order in which they were added, in memory of a fixed size: no heap can fail it.
// The places past the items are blank, which no array of the library promises.
#[derive(Drop)]
pub struct Table<T: Blank, const N: usize> {
    places: [T; N],
    count: usize,
}

// Clauses see the items.
impl<T: Blank, const N: usize> Model for Table<T, N> {
    ghost use Rattle.std.specs.Prelude.{◌≡◌, ◌≤◌, List, take};
    ghost use Rattle.font.specs.Table.{table_of};

    ghost Value = { List T };

    ghost view = { λ table. take table.count table.places };

    ghost invariant = { λ table. (table.count ≤ N) × (table.places ≡ table_of N T.BLANK (take table.count table.places)) };
}

impl<T: Blank, const N: usize> Table<T, N> {
    pub fn new() -> Table<T, N>
        ensures { result ≡ [] }
    {
        Table {
            places: [T::BLANK; N],
            count: 0,
        }
    }

    pub fn items(&self) -> &[T]
        ensures items { result.now ≡ self.now }
        ensures few { length result.now ≤ N }
    {
        &self.places[..self.count]
    }

    // One item more; a full table hands it back and does not change.
    pub fn push(&mut self, item: T) -> Result<(), T>
        ensures answer { result ≡ (if nat_lt (length self.old) N then Ok tt else Err item) }
        ensures items { self.new ≡ (if nat_lt (length self.old) N then self.old ++ item ∷ [] else self.old) }
    {
        if self.count == N {
            return Err(item);
        }
        self.places[self.count] = item;
        self.count += 1;
        Ok(())
    }
}
