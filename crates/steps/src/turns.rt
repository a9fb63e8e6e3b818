ghost use Rattle.std.specs.Prelude.{◌≡◌, ℕ, ◌+◌, ◌*◌, ◌<◌, ◌≤◌, Bool, true, false, List, length, None, Option, Result, MatchBool};
ghost use Rattle.task.specs.Answers.{held};
ghost use Rattle.task.specs.Files.{task_of};
ghost use Rattle.queue.specs.Orders.{Names};
ghost use Rattle.steps.specs.Memories.{memory, width};
ghost use Rattle.steps.specs.Steps.{Sound, Sized, Whole};
ghost use Rattle.steps.specs.Answers.{Looks, Looked};
ghost use Rattle.steps.specs.Turns.{Turns, Counts, Unmoved};

use crate::numbers::{Numbers, Turned};
use crate::outcomes::{Stop, Visited};
use crate::row_at;
use crate::tables::Tables;
use crate::workspaces::Workspace;
use cost::costs::Cost;
use queue::queues::Queue;
use rows::checks::{MOST_VARIABLES, fits};
use rows::refusals::Refusal;
use store::stores::Store;
use task::accepted::Accepted;

// One turn of a job on an accepted file: a step, unless the tables are torn.
pub fn turn<K: Cost, S: Store, Q: Queue<K>>(
    accepted: &Accepted<'_>,
    t: &mut Tables<'_, K, S, Q>,
    job: Numbers,
) -> Result<Turned, Refusal>
    ensures counts { Counts K.Cost S.Store Q.Queue (task_of (held accepted.now.task)) job t.new result }
    ensures unmoved { Unmoved t.old t.new result }
    ensures turns { Q.Queue.ordered t.old.queue → Turns K.Cost S.Store Q.Queue (task_of (held accepted.now.task)) job t.old t.new result }
{
    t.turn(accepted, job)
}

impl<K: Cost, S: Store, Q: Queue<K>> Tables<'_, K, S, Q> {
    // Whether the tables are as large as the capacity asks, over the task's values table, and as full as the job left them.
    fn is_sized(&self, accepted: &Accepted<'_>, job: Numbers) -> bool
        ensures { MatchBool result (Sized K.Cost (task_of (held accepted.now.task)) job.progress.capacity job.kept job.waiting (memory S.Store Q.Queue self.now 0 None)) (Sized K.Cost (task_of (held accepted.now.task)) job.progress.capacity job.kept job.waiting (memory S.Store Q.Queue self.now 0 None) → ⊥) }
    {
        let capacity = usize::from(job.progress.capacity);
        if capacity > self.records.len() {
            return false;
        }
        if self.store.count() != usize::from(job.kept)
            || self.queue.count() != usize::from(job.waiting)
        {
            return false;
        }
        if self.store.capacity() < capacity || self.queue.capacity() < capacity {
            return false;
        }
        let values = accepted.task.values;
        capacity * values.len() <= self.rows.len() && self.store.values() == values
    }

    // Whether node n is stored, its row fits, and its cost joins no more moves than its number.
    fn is_sound(&self, accepted: &Accepted<'_>, n: u16, job: Numbers) -> bool
        requires bytes { job.progress.stored * width (task_of (held accepted.now.task)) ≤ length self.now.rows.now }
        requires records { job.progress.stored ≤ length self.now.records.now }
        ensures { MatchBool result (Sound K.Cost (task_of (held accepted.now.task)) n (memory S.Store Q.Queue self.now job.progress.stored job.progress.cover)) (Sound K.Cost (task_of (held accepted.now.task)) n (memory S.Store Q.Queue self.now job.progress.stored job.progress.cover) → ⊥) }
    {
        if n >= job.progress.stored {
            return false;
        }
        let values = accepted.task.values;
        if !fits(values, row_at(self.rows, n, values.len())) {
            return false;
        }
        self.records[usize::from(n)].cost.moves() <= n
    }

    // The node that a step would take, or nothing where none waits; refused where the tables are torn.
    fn look(&self, accepted: &Accepted<'_>, job: Numbers) -> Result<Option<u16>, Refusal>
        ensures looked { Looked K.Cost (task_of (held accepted.now.task)) job.progress.capacity job.kept job.waiting (memory S.Store Q.Queue self.now job.progress.stored job.progress.cover) result }
        ensures looks { Q.Queue.ordered self.now.queue → Looks K.Cost (task_of (held accepted.now.task)) job.progress.capacity job.kept job.waiting (memory S.Store Q.Queue self.now job.progress.stored job.progress.cover) result }
    {
        if !self.is_sized(accepted, job) {
            return Err(Refusal::Torn);
        }
        if job.waiting == 0 {
            return Ok(None);
        }
        match self.queue.least() {
            Some(n) if self.is_sound(accepted, n, job) => Ok(Some(n)),
            _ => Err(Refusal::Torn),
        }
    }

    // A turn that takes node n.
    fn take(&mut self, accepted: &Accepted<'_>, n: u16, job: Numbers) -> Result<Turned, Refusal>
        requires sized { Sized K.Cost (task_of (held accepted.now.task)) job.progress.capacity job.kept job.waiting (memory S.Store Q.Queue self.old job.progress.stored job.progress.cover) }
        requires some { 0 < job.waiting }
        requires sound { Sound K.Cost (task_of (held accepted.now.task)) n (memory S.Store Q.Queue self.old job.progress.stored job.progress.cover) }
        ensures counts { Counts K.Cost S.Store Q.Queue (task_of (held accepted.now.task)) job self.new result }
        ensures unmoved { Unmoved self.old self.new result }
        ensures turns { Q.Queue.ordered self.old.queue → Whole K.Cost (task_of (held accepted.now.task)) job.progress.capacity job.kept job.waiting (memory S.Store Q.Queue self.old job.progress.stored job.progress.cover) → Names K.Cost (Q.Queue.entries self.old.queue) n → Turns K.Cost S.Store Q.Queue (task_of (held accepted.now.task)) job self.old self.new result }
    {
        let mut scratch = [0; MOST_VARIABLES];
        let Numbers {
            progress,
            kept,
            waiting,
        } = job;
        let mut space = Workspace {
            accepted: *accepted,
            rows: &mut *self.rows,
            records: &mut *self.records,
            store: &mut self.store,
            queue: &mut self.queue,
            node: n,
            progress,
        };
        match space.step(&mut scratch) {
            Err(Stop::Torn) => Err(Refusal::Torn),
            Err(Stop::Crowded) => Ok(Turned::OutOfSpace(space.progress)),
            Ok(Visited::Found) => Ok(Turned::Found(n)),
            Ok(Visited::Skipped) => Ok(Turned::Onward(Numbers {
                progress: space.progress,
                kept,
                waiting: waiting - 1,
            })),
            Ok(Visited::Expanded) => {
                let numbers = Numbers {
                    progress: space.progress,
                    kept: kept + 1,
                    waiting: waiting - 1 + (space.progress.stored - progress.stored),
                };
                Ok(Turned::Onward(numbers))
            }
        }
    }

    // One turn of a job on an accepted file: a step, unless the tables are torn.
    pub fn turn(&mut self, accepted: &Accepted<'_>, job: Numbers) -> Result<Turned, Refusal>
        ensures counts { Counts K.Cost S.Store Q.Queue (task_of (held accepted.now.task)) job self.new result }
        ensures unmoved { Unmoved self.old self.new result }
        ensures turns { Q.Queue.ordered self.old.queue → Turns K.Cost S.Store Q.Queue (task_of (held accepted.now.task)) job self.old self.new result }
    {
        match self.look(accepted, job)? {
            None => Ok(Turned::NoPlan),
            Some(n) => self.take(accepted, n, job),
        }
    }
}
