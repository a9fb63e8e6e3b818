ghost use Rattle.std.specs.Prelude.{◌≡◌, ℕ, List, length};
ghost use Rattle.rows.specs.Rows.{Row};
ghost use Rattle.store.specs.Stores.{Lawful, CoverAnswer, KeepAnswer, Still};

use rows::refusals::Refusal;

// A list of distinct rows in the order kept, over one values table, with a capacity. A row's rank is its place in the list, from 0.
pub trait Store {
    ghost kept: { Self → List Row };

    ghost table: { Self → List ℕ };

    ghost space: { Self → ℕ };

    ghost lawful: { (s : Self) → Lawful (table s) (kept s) (space s) };

    // The ghost name of the memory that the store was lent: while it stays, who lent the memory knows what it holds when the store ends.
    ghost lender: { Self → ℕ };

    // The rank of a kept row that covers the row, or nothing if none does. Which of several it names is open.
    fn cover(&self, row: &[u8]) -> Result<Option<u16>, Refusal>
        ensures { CoverAnswer (table self.now) (kept self.now) row.now result };

    // Keeps the row, at the next rank.
    fn keep(&mut self, row: &[u8]) -> Result<(), Refusal>
        ensures answer { KeepAnswer (table self.old) (kept self.old) (space self.old) row.now (kept self.new) result }
        ensures still { Still result self.old self.new }
        ensures values { table self.new ≡ table self.old }
        ensures space { space self.new ≡ space self.old }
        ensures lender { lender self.new ≡ lender self.old };

    fn count(&self) -> usize
        ensures { result ≡ length (kept self.now) };

    fn capacity(&self) -> usize
        ensures { result ≡ space self.now };

    fn values(&self) -> &[u8]
        ensures { result.now ≡ table self.now };
}
