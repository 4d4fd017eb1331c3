// A page of bytes that grows at its end, in memory of a fixed size.
ghost use Rattle.std.specs.Prelude.{◌≡◌, ◌+◌, ◌<◌, ◌≤◌, [], ◌∷◌, ◌++◌, length};

use std::marker::Model;

// At most `N` bytes. No `ArrayVec` of the library: a clause sees this one as a plain list, and what it asks is room, where
// `try_extend_from_slice` answers with a `Result`.
#[derive(Clone, Copy)]
pub struct Page<const N: usize> {
    bytes: [u8; N],
    len: usize,
}

// Clauses see the bytes that the page has. Behind them are zeros, so that no two pages differ that have the same bytes.
impl<const N: usize> Model for Page<N> {
    ghost use Rattle.std.specs.Prelude.{List, ℕ};

    ghost Value = { List ℕ };

    ghost use Rattle.fields.specs.Page.{page_view, IsPage, page_of, page_same};

    ghost view = { page_view };

    ghost invariant = { IsPage };

    ghost inverse = { page_of N };

    ghost inverse_ok = { page_same N };
}

impl<const N: usize> Page<N> {
    // One with no bytes.
    pub fn new() -> Self
        ensures { result ≡ [] }
    {
        Page {
            bytes: [0; N],
            len: 0,
        }
    }

    // Its bytes.
    pub fn as_slice(&self) -> &[u8]
        ensures { (result.now ≡ self.now) × (length self.now ≤ N) }
    {
        &self.bytes[..self.len]
    }

    // One byte more at its end.
    pub fn push(&mut self, byte: u8)
        requires { length self.old < N }
        ensures { self.new ≡ self.old ++ byte ∷ [] }
    {
        self.bytes[self.len] = byte;
        self.len += 1;
    }

    // More bytes at its end.
    pub fn append(&mut self, more: &[u8])
        requires { length self.old + length more.now ≤ N }
        ensures { self.new ≡ self.old ++ more.now }
    {
        let end = self.len + more.len();
        // All bytes are lent first: to change a part, an array whose length is a const parameter is not lent by that part.
        let bytes = &mut self.bytes[..];
        bytes[self.len..end].copy_from_slice(more);
        self.len = end;
    }
}
