ghost use Rattle.std.specs.Prelude.{◌≡◌, ◌+◌, ◌*◌, ◌<◌, ◌≤◌, [], length, MatchBool};
ghost use Rattle.store.specs.Stores.{Distinct, AllFit, Holds, space_of};
ghost use Rattle.store.specs.Blocks.{row_at, rows_of};
ghost use Rattle.store.specs.Laws.{row_lawful};

use crate::capacity::capacity_of;
use crate::stores::Store;
use rows::checks::fits;
use rows::inner::row_covers;
use rows::refusals::Refusal;

// Rows one after the other in lent bytes.
#[derive(Drop)]
pub struct RowStore<'t, 'm> {
    values: &'t [u8],
    bytes: &'m mut [u8],
    space: usize,
    count: usize,
    ghost measured: { space ≡ space_of values.now (length bytes.now) },
    ghost inside: { count ≤ space },
    ghost apart: { Distinct (rows_of (length values.now) count bytes.now) },
    ghost fit: { AllFit values.now (rows_of (length values.now) count bytes.now) },
}

impl<'t, 'm> RowStore<'t, 'm> {
    // An empty store, whatever the bytes hold; it leaves them as they are.
    pub fn new(values: &'t [u8], bytes: &'m mut [u8]) -> RowStore<'t, 'm>
        ensures table { result.values.now ≡ values.now }
        ensures empty { rows_of (length result.values.now) result.count result.bytes.now ≡ [] }
        ensures space { space_of result.values.now (length result.bytes.now) ≡ space_of values.now (length bytes.old) }
        ensures memory { result.bytes.now ≡ bytes.old }
        ensures lender { result.bytes.ghost_name ≡ bytes.entry.ghost_name }
    {
        let space = capacity_of(values, bytes.len());
        RowStore {
            values,
            bytes,
            space,
            count: 0,
        }
    }
}

// Kept rows are gone through by rank, which is what is answered; in chunks, a table of no variables would need a test of its own.
impl RowStore<'_, '_> {
    // The kept row of rank r.
    fn row_at(&self, r: usize) -> &[u8]
        requires { r < self.now.count }
        ensures { result.now ≡ row_at (length self.now.values.now) self.now.bytes.now r }
    {
        let width = self.values.len();
        let at = r * width;
        &self.bytes[at..at + width]
    }

    // Whether a kept row equals the row.
    fn holds(&self, row: &[u8]) -> bool
        requires { length row.now ≡ length self.now.values.now }
        ensures { MatchBool result (Holds (rows_of (length self.now.values.now) self.now.count self.now.bytes.now) row.now) (Holds (rows_of (length self.now.values.now) self.now.count self.now.bytes.now) row.now → ⊥) }
    {
        (0..self.count).any(|r| self.row_at(r) == row)
    }
}

impl<'t, 'm> Store for RowStore<'t, 'm> {
    ghost kept = { λ s. rows_of (length s.values.now) s.count s.bytes.now };

    ghost table = { λ s. s.values.now };

    ghost space = { λ s. space_of s.values.now (length s.bytes.now) };

    ghost lawful = { λ s. row_lawful s.values.now s.bytes.now s.space s.count s.measured s.inside s.apart s.fit };

    ghost lender = { λ s. s.bytes.ghost_name };

    fn cover(&self, row: &[u8]) -> Result<Option<u16>, Refusal> {
        if !fits(self.values, row) {
            return Err(Refusal::Misfit);
        }
        // as: a rank is below the capacity, which is at most 65,535, and u16::try_from would bring an error that cannot be
        Ok(
            (0..self.count)
                .find(|r| row_covers(self.row_at(*r), row))
                .map(|r| r as u16),
        )
    }

    // The bytes past the kept rows are written first: until the count is raised, the store means what it did.
    fn keep(&mut self, row: &[u8]) -> Result<(), Refusal> {
        if !fits(self.values, row) {
            return Err(Refusal::Misfit);
        }
        let n = self.count;
        if self.holds(row) {
            return Err(Refusal::Known);
        }
        if n >= self.space {
            return Err(Refusal::Full);
        }
        let at = n * row.len();
        self.bytes[at..at + row.len()].copy_from_slice(row);
        self.count = n + 1;
        Ok(())
    }

    fn count(&self) -> usize {
        self.count
    }

    fn capacity(&self) -> usize {
        self.space
    }

    fn values(&self) -> &[u8] {
        self.values
    }
}
