ghost use Rattle.std.specs.Prelude.{◌≡◌, ℕ, ◌/◌, ◌<◌, min, Bool, true, false, length, None, MatchBool};
ghost use Rattle.task.specs.Answers.{held};
ghost use Rattle.task.specs.Files.{task_of};
ghost use Rattle.steps.specs.Memories.{memory};
ghost use Rattle.steps.specs.Begins.{New, Begins};

use crate::tables::{Record, Tables};
use crate::write_row;
use cost::costs::Cost;
use queue::queues::Queue;
use rows::refusals::Refusal;
use store::stores::Store;
use task::accepted::Accepted;

// Begins a job in new tables, and answers its capacity: node 0 is stored and waits.
pub fn begin<K: Cost, S: Store, Q: Queue<K>>(
    accepted: &Accepted<'_>,
    t: &mut Tables<'_, K, S, Q>,
) -> Result<u16, Refusal>
    ensures { Begins K.Cost S.Store Q.Queue (task_of (held accepted.now.task)) t.old t.new result }
{
    t.begin(accepted)
}

impl<K: Cost, S: Store, Q: Queue<K>> Tables<'_, K, S, Q> {
    // The least of the capacities of the tables' parts, for rows of so many bytes.
    fn capacity(&self, width: usize) -> u16
        requires { 0 < width }
        ensures { result ≡ min (min (min (min (length self.now.rows.now / width) (length self.now.records.now)) (S.Store.space self.now.store)) (Q.Queue.room self.now.queue)) 65535 }
    {
        let rows = self.rows.len() / width;
        let nodes = rows.min(self.records.len());
        let kept = nodes.min(self.store.capacity());
        let waiting = kept.min(self.queue.capacity());
        u16::try_from(waiting).unwrap_or(u16::MAX)
    }

    // Whether nothing is kept, nothing waits, and the store is over the task's values table.
    fn is_new(&self, accepted: &Accepted<'_>) -> bool
        ensures { MatchBool result (New (task_of (held accepted.now.task)) (memory S.Store Q.Queue self.now 0 None)) (New (task_of (held accepted.now.task)) (memory S.Store Q.Queue self.now 0 None) → ⊥) }
    {
        let kept = self.store.count();
        let waiting = self.queue.count();
        if kept > 0 || waiting > 0 {
            return false;
        }
        self.store.values() == accepted.task.values
    }

    // Begins a job in new tables, and answers its capacity: node 0 is stored and waits.
    pub fn begin(&mut self, accepted: &Accepted<'_>) -> Result<u16, Refusal>
        ensures { Begins K.Cost S.Store Q.Queue (task_of (held accepted.now.task)) self.old self.new result }
    {
        if !self.is_new(accepted) {
            return Err(Refusal::Used);
        }
        let c = self.capacity(accepted.task.values.len());
        if c == 0 {
            return Err(Refusal::NoSpace);
        }
        let root: Record<K> = Record::root();
        write_row(self.rows, 0, accepted.task.goal);
        self.records[0] = root;
        self.queue.put(root.cost, 0)?;
        Ok(c)
    }
}
