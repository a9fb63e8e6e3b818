ghost use Rattle.std.specs.Prelude.{◌≡◌};
ghost use Rattle.trie.specs.Cells.{blank};

// A place in a trie: 12 bytes. Memory is handed to a trie as a slice of these, whatever they hold.
// A cell names others by their places, in 32 bits, since a device has no heap to own them; `usize` has no From for such a number.
#[derive(Clone, Copy)]
pub struct Cell {
    // the newest branch, or 0
    pub(crate) head: u32,
    // the next older branch of the same cell, or 0
    pub(crate) next: u32,
    // of the row that the cell was made for
    pub(crate) rank: u16,
    // of the variable that the branch to this cell fixes
    pub(crate) byte: u8,
}

impl Cell {
    pub fn blank() -> Cell
        ensures { result ≡ blank }
    {
        Cell {
            head: 0,
            next: 0,
            rank: 0,
            byte: 0,
        }
    }
}
