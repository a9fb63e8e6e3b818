ghost use Rattle.std.specs.Prelude.{◌≡◌, min, [], length, MatchOption};
ghost use Rattle.queue.specs.Orders.{Leads};
ghost use Rattle.queue.specs.Places.{front_fits};
ghost use Rattle.queue.specs.Makes.{row_entries, row_room};

use crate::entries::Entry;
use crate::places::goes_before;
use crate::queues::Queue;
use crate::waiting::Waiting;
use cost::costs::Cost;
use rows::refusals::Refusal;

// A queue as a row of entries in no order, which least and take go through: O(n).
#[derive(Drop)]
pub struct ScannedRow<'a, K> {
    waiting: Waiting<'a, Entry<K>>,
}

impl<'a, K: Cost> ScannedRow<'a, K> {
    // An empty queue over the memory handed, whatever it holds.
    pub fn new(entries: &'a mut [Entry<K>]) -> ScannedRow<'a, K>
        ensures empty { row_entries result ≡ [] }
        ensures room { row_room result ≡ min (length entries.old) 65535 }
        ensures same { result.waiting.places.now ≡ entries.old }
        ensures lent { result.waiting.places.ghost_name ≡ entries.entry.ghost_name }
    {
        ScannedRow {
            waiting: Waiting::new(entries),
        }
    }
}

impl<'a, K: Cost> Queue<K> for ScannedRow<'a, K> {
    ghost entries = { row_entries };

    ghost room = { row_room };

    // every row will do
    ghost ordered = { λ q. Unit {0} };

    ghost empty = { λ q e. tt };

    ghost fits = { λ q. front_fits q.waiting.count q.waiting.places.now };

    ghost lent = { λ q. q.waiting.places.ghost_name };

    fn put(&mut self, cost: K, number: u16) -> Result<(), Refusal> {
        self.waiting.push(Entry { cost, number })
    }

    fn least(&self) -> Option<u16> {
        let row = self.waiting.as_slice();
        let at = first_of(row)?;
        Some(row[at].number)
    }

    fn take(&mut self) -> Option<Entry<K>> {
        let at = first_of(self.waiting.as_slice())?;
        self.waiting.swap_remove(at)
    }

    fn count(&self) -> usize {
        self.waiting.len()
    }

    fn capacity(&self) -> usize {
        self.waiting.capacity()
    }
}

// The place of the entry that no other comes before, if there is any.
fn first_of<K: Cost>(row: &[Entry<K>]) -> Option<usize>
    ensures { MatchOption result (row.now ≡ []) (λ b. Leads K.Cost row.now (length row.now) b) }
{
    if row.is_empty() {
        return None;
    }
    let mut best = 0;
    for (i, entry) in row.iter().enumerate() {
        if goes_before(*entry, row[best]) {
            best = i;
        }
    }
    Some(best)
}
