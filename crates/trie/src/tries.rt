ghost use Rattle.std.specs.Prelude.{◌≡◌, ℕ, ◌+◌, ◌-◌, ◌^◌, ◌<◌, ◌≤◌, true, List, [], ◌∷◌, ◌++◌, length, slice_set};
ghost use Rattle.rows.specs.Rows.{fits, covers_at};
ghost use Rattle.store.specs.Stores.{space_of};
ghost use Rattle.trie.specs.Cells.{IsSound, rows_in, linked, blank};
ghost use Rattle.trie.specs.Laws.{trie_lawful};
ghost use Rattle.trie.specs.Lookups.{Looks, Looked, Branch, Deepest};

use crate::cells::Cell;
use rows::checks::{MARK, fits};
use rows::refusals::Refusal;
use store::capacity::capacity_of;
use store::stores::Store;

// A trie of rows in lent cells: each level branches by one variable, and a kept row is a way from the root to a cell of the last level.
#[derive(Drop)]
pub struct Trie<'t, 'm> {
    values: &'t [u8],
    cells: &'m mut [Cell],
    space: usize,
    used: usize,
    count: usize,
    ghost measured: { space ≡ space_of values.now (length cells.now - 1) },
    ghost inside: { count ≤ space },
    ghost sound: { IsSound values.now cells.now used count },
}

impl<'t, 'm> Trie<'t, 'm> {
    // An empty trie, whatever the cells hold. It makes the first one, if there is one, the root, and leaves the others as they are.
    pub fn new(values: &'t [u8], cells: &'m mut [Cell]) -> Trie<'t, 'm>
        ensures table { result.values.now ≡ values.now }
        ensures empty { rows_in (length result.values.now) result.cells.now result.used result.count ≡ [] }
        ensures space { space_of result.values.now (length result.cells.now - 1) ≡ space_of values.now (length cells.old - 1) }
        ensures memory { result.cells.now ≡ slice_set cells.old 0 blank }
        ensures lender { result.cells.ghost_name ≡ cells.entry.ghost_name }
    {
        let space = capacity_of(values, cells.len().saturating_sub(1));
        plant(cells);
        Trie {
            values,
            cells,
            space,
            used: 1,
            count: 0,
        }
    }
}

impl Trie<'_, '_> {
    // Looks into the cell c, which lies in the level `level`: the rank of a covering row that goes by it.
    // It goes one variable deeper into the branch of the mark and that of the row's byte.
    fn look(&self, row: &[u8], c: usize, level: usize) -> Option<u16>
        requires { Looks self.now.values.now row.now self.now.cells.now self.now.used self.now.count c level }
        ensures { Looked self.now.values.now row.now self.now.cells.now self.now.used self.now.count c level result }
    {
        if level >= self.values.len() {
            return Some(self.cells[c].rank);
        }
        let mut b = self.cells[c].head as usize;
        while b != 0 {
            let cell = self.cells[b];
            if leads(cell.byte, row[level]) {
                if let Some(r) = self.look(row, b, level + 1) {
                    return Some(r);
                }
            }
            b = cell.next as usize;
        }
        None
    }

    // The branch of the cell c with that byte.
    // As in `look`, a plain loop goes along the branches: an iterator of them, with its own proof, would be longer than both loops.
    fn branch(&self, c: usize, byte: u8) -> Option<usize>
        requires some { 0 < self.now.space }
        requires within { c < self.now.used }
        ensures { Branch self.now.cells.now self.now.used c byte result }
    {
        let mut b = self.cells[c].head as usize;
        while b != 0 {
            let cell = self.cells[b];
            if cell.byte == byte {
                return Some(b);
            }
            b = cell.next as usize;
        }
        None
    }

    // The last cell on the way along the row's own bytes, and its level.
    fn deepest(&self, row: &[u8]) -> (usize, usize)
        requires some { 0 < self.now.space }
        requires wide { length row.now ≡ length self.now.values.now }
        ensures { Deepest self.now.values.now row.now self.now.cells.now self.now.used result.0 result.1 }
    {
        let mut c = 0;
        for (level, byte) in row.iter().enumerate() {
            let Some(b) = self.branch(c, *byte) else {
                return (c, level);
            };
            c = b;
        }
        (c, row.len())
    }

    // Adds a row that is not kept; c is the last cell on the way along its bytes, and lies in the level `level`.
    // The new cells are written past the used ones first: until they are hung below c, the trie means what it did.
    fn add(&mut self, row: &[u8], c: usize, level: usize)
        requires way { Deepest self.old.values.now row.now self.old.cells.now self.old.used c level }
        requires fresh { level < length self.old.values.now }
        requires fit { fits self.old.values.now row.now ≡ true }
        requires spare { self.old.count < self.old.space }
        ensures added { rows_in (length self.new.values.now) self.new.cells.now self.new.used self.new.count ≡ rows_in (length self.old.values.now) self.old.cells.now self.old.used self.old.count ++ row.now ∷ [] }
        ensures table { self.new.values.now ≡ self.old.values.now }
        ensures space { self.new.space ≡ self.old.space }
        ensures lender { self.new.cells.ghost_name ≡ self.old.cells.ghost_name }
    {
        // as: ranks and places fit by the type's invariant, and try_from would bring errors that cannot be
        let from = self.used;
        let rank = self.count;
        let k = row.len() - level;
        let new = NewCells {
            head: self.cells[c].head,
            from,
            k,
            rank: rank as u16,
        };
        for (i, byte) in row[level..].iter().enumerate() {
            self.cells[from + i] = new.cell(i, *byte);
        }
        self.cells[c].head = from as u32;
        self.used = from + k;
        self.count = rank + 1;
    }
}

// Makes the first cell, if there is one, the root of an empty trie.
fn plant(cells: &mut [Cell])
    ensures root { cells.new ≡ slice_set cells.old 0 blank }
    ensures sound { (values : List ℕ) → IsSound values cells.new 1 0 }
{
    if let Some(root) = cells.first_mut() {
        *root = Cell::blank();
    }
}

// Whether rows that go into a branch of this byte can cover a row that has the byte `asked` there.
fn leads(byte: u8, asked: u8) -> bool
    ensures { result ≡ covers_at byte asked }
{
    byte == MARK || byte == asked
}

// The new cells of a row: k of them, which lie from the place `from` on. The first becomes the newest branch of a cell whose newest
// one is `head` until now.
#[derive(Clone, Copy)]
struct NewCells {
    head: u32,
    from: usize,
    k: usize,
    rank: u16,
}

impl NewCells {
    // The i-th of these cells.
    fn cell(self, i: usize, byte: u8) -> Cell
        requires { self.from + i + 1 < 2 ^ 32 }
        ensures { result ≡ linked self.head self.from self.k self.rank i byte }
    {
        Cell {
            head: if i + 1 < self.k {
                (self.from + i + 1) as u32
            } else {
                0
            },
            next: if i == 0 { self.head } else { 0 },
            rank: self.rank,
            byte,
        }
    }
}

impl<'t, 'm> Store for Trie<'t, 'm> {
    ghost kept = { λ s. rows_in (length s.values.now) s.cells.now s.used s.count };

    ghost table = { λ s. s.values.now };

    ghost space = { λ s. space_of s.values.now (length s.cells.now - 1) };

    ghost lawful = { λ s. trie_lawful s.values.now s.cells.now s.space s.used s.count s.measured s.inside s.sound };

    ghost lender = { λ s. s.cells.ghost_name };

    fn cover(&self, row: &[u8]) -> Result<Option<u16>, Refusal> {
        if !fits(self.values, row) {
            return Err(Refusal::Misfit);
        }
        if self.count == 0 {
            return Ok(None);
        }
        Ok(self.look(row, 0, 0))
    }

    fn keep(&mut self, row: &[u8]) -> Result<(), Refusal> {
        if !fits(self.values, row) {
            return Err(Refusal::Misfit);
        }
        if self.space == 0 {
            return Err(Refusal::Full);
        }
        let (c, level) = self.deepest(row);
        if level == row.len() {
            return Err(Refusal::Known);
        }
        if self.count >= self.space {
            return Err(Refusal::Full);
        }
        self.add(row, c, level);
        Ok(())
    }

    fn count(&self) -> usize {
        self.count
    }

    fn capacity(&self) -> usize {
        self.space
    }

    fn values(&self) -> &[u8] {
        self.values
    }
}
