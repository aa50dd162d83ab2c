// A list of at most N elements in a table of its own.
ghost use Rattle.std.specs.Prelude.{◌≡◌, ◌≤◌, ⊤};

use std::alloc::AllocError;

/// At most `N` elements, in order.
// A fixed table and its length, held by one type: no answer on a file may be that memory ran out.
#[derive(Drop)]
pub struct Row<T, const N: usize> {
    items: [T; N],
    len: usize,
    ghost few: { len ≤ N },
}

impl<T: Copy, const N: usize> Copy for Row<T, N> {}

impl<T: Copy, const N: usize> Clone for Row<T, N> {
    ghost is_clone = { λ r s. s ≡ r };

    ghost is_infallible = { λ _. ⊤ };

    fn clone(&self) -> Result<Row<T, N>, AllocError> {
        Ok(*self)
    }
}

impl<T: Copy, const N: usize> Row<T, N> {
    ghost use Rattle.std.specs.Prelude.{◌<◌, [], ◌∷◌, ◌++◌, length, Ok, Err};
    ghost use Rattle.grammar.specs.Rows.{row_items};

    /// No elements; `filler` stands in the unused places.
    pub fn new(filler: T) -> Row<T, N>
        ensures { row_items result ≡ [] }
    {
        Row {
            items: [filler; N],
            len: 0,
        }
    }

    /// The elements, first to last.
    pub fn as_slice(&self) -> &[T]
        ensures { result.now ≡ row_items self.now }
    {
        &self.items[..self.len]
    }

    /// How many elements there are, and the table with what stands in the unused places.
    pub fn table(&self) -> (usize, [T; N])
        ensures { (result.0 ≡ self.now.len) × (result.1 ≡ self.now.items) }
    {
        (self.len, self.items)
    }

    /// One element more at the end; gives it back, with nothing changed, where the row is full.
    pub fn push(&mut self, x: T) -> Result<(), T>
        ensures room { length (row_items self.old) < N → (result ≡ Ok tt) × (row_items self.new ≡ row_items self.old ++ x ∷ []) }
        ensures full { N ≤ length (row_items self.old) → (result ≡ Err x) × (row_items self.new ≡ row_items self.old) }
    {
        if self.as_slice().len() >= N {
            return Err(x);
        }
        self.items[self.len] = x;
        self.len += 1;
        Ok(())
    }
}
