ghost use Rattle.std.specs.Prelude.{◌≡◌, ◌<◌, length, take, Some, None, MatchOption, slice_index_or};
ghost use Rattle.rows.specs.Rows.{covers};
ghost use Rattle.store.specs.Stores.{CoverAnswer};
ghost use Rattle.queue.specs.Orders.{Names};
ghost use Rattle.planning.specs.Plans.{price};
ghost use Rattle.steps.specs.Memories.{width, row_at};
ghost use Rattle.steps.specs.Steps.{answered, back};
ghost use Rattle.steps.specs.Answers.{memory_in, task_in, Lent, ReadyAt, SteadyAt, EagerAt, Moved, MoveGranted, MoveCounts, Expands, ExpandCounts, Visits, VisitCounts, Takes, TakeCounts, Granted};
ghost use Rattle.steps.specs.Results.{Adds, Keeps};

use crate::outcomes::{Stop, Visited};
use crate::tables::Record;
use crate::workspaces::{Scratch, Workspace};
use crate::{move_count, regress, row_at, write_row};
use cost::costs::Cost;
use cost::plans::prepend;
use queue::queues::Queue;
use rows::inner::row_covers;
use rows::refusals::Refusal;
use store::stores::Store;

impl<K: Cost, S: Store, Q: Queue<K>> Workspace<'_, '_, '_, '_, '_, K, S, Q> {
    // The number of variables.
    fn variables(&self) -> usize
        ensures { result ≡ width (task_in self.now) }
    {
        self.accepted.task.values.len()
    }

    // The node's row, into the row to work in.
    fn fetch(&self, scratch: &mut Scratch)
        ensures { take (width (task_in self.now)) scratch.new ≡ row_at (width (task_in self.now)) self.now.rows.now self.now.node }
    {
        let v = self.variables();
        scratch[..v].copy_from_slice(row_at(self.rows, self.node, v));
    }

    // The rank of a kept row that covers the row at work, or nothing if none does.
    fn cover(&self, scratch: &Scratch) -> Result<Option<u16>, Refusal>
        ensures { CoverAnswer (S.Store.table self.now.store.now) (S.Store.kept self.now.store.now) (take (width (task_in self.now)) scratch.now) result }
    {
        self.store.cover(&scratch[..self.variables()])
    }

    // Whether the row at work agrees with the start.
    fn agrees(&self, scratch: &Scratch) -> bool
        ensures { result ≡ covers (take (width (task_in self.now)) scratch.now) (task_in self.now).start }
    {
        row_covers(&scratch[..self.variables()], self.accepted.task.start)
    }

    // The price of move m if the node's row is regressed over it; the result is then the row at work.
    fn regress(&self, m: u16, scratch: &mut Scratch) -> Option<u32>
        ensures { MatchOption result (back (task_in self.now) m (row_at (width (task_in self.now)) self.now.rows.now self.now.node) ≡ None) (λ p. (back (task_in self.now) m (row_at (width (task_in self.now)) self.now.rows.now self.now.node) ≡ Some (take (width (task_in self.now)) scratch.new)) × (p ≡ price (task_in self.now) m)) }
    {
        let v = self.variables();
        regress(
            &self.accepted,
            m,
            row_at(self.rows, self.node, v),
            &mut scratch[..v],
        )
    }

    // What the node costs.
    fn cost(&self) -> K
        ensures { (d : Record K) → result ≡ (slice_index_or self.now.records.now self.now.node d).cost }
    {
        self.records[usize::from(self.node)].cost
    }

    // Keeps the row at work, at the next rank.
    fn keep(&mut self, scratch: &Scratch) -> Result<(), Refusal>
        ensures { Keeps K.Cost S.Store Q.Queue (take (width (task_in self.old)) scratch.now) self.old self.new result }
    {
        let v = self.variables();
        self.store.keep(&scratch[..v])
    }

    // The row at work, met by move m at this price, which no kept row covers, as the next node.
    fn add(&mut self, scratch: &Scratch, m: u16, price: u32) -> Result<(), Stop>
        ensures { Adds K.Cost S.Store Q.Queue m price (take (width (task_in self.old)) scratch.now) self.old self.new result }
    {
        let stored = self.progress.stored;
        if stored >= self.progress.capacity {
            return Err(Stop::Crowded);
        }
        let cost = prepend(price, self.cost())?;
        let parent = self.node;
        let v = self.variables();
        write_row(self.rows, stored, &scratch[..v]);
        self.records[usize::from(stored)] = Record {
            cost,
            parent,
            step: m,
        };
        self.queue.put(cost, stored)?;
        self.progress.stored = stored + 1;
        Ok(())
    }

    // Notes the rank that was answered.
    fn answer(&mut self, rank: u16)
        ensures lent { Lent self.old self.new }
        ensures answered { memory_in S.Store Q.Queue self.new ≡ answered (memory_in S.Store Q.Queue self.old) rank }
        ensures tables { (self.new.store.now ≡ self.old.store.now) × (self.new.queue.now ≡ self.old.queue.now) }
    {
        self.progress.cover = Some(rank);
    }

    // Tries move m at the node. For a result that a kept row covers nothing is written.
    fn try_move(&mut self, m: u16, scratch: &mut Scratch) -> Result<(), Stop>
        ensures lent { Lent self.old self.new }
        ensures counts { MoveCounts S.Store Q.Queue self.old self.new result }
        ensures granted { ReadyAt K.Cost S.Store Q.Queue self.old self.old → MoveGranted K.Cost S.Store Q.Queue self.old self.new result }
        ensures moved { Q.Queue.ordered self.old.queue.now → ReadyAt K.Cost S.Store Q.Queue self.old self.old → Moved K.Cost S.Store Q.Queue self.old m self.new result }
    {
        let Some(price) = self.regress(m, scratch) else {
            return Ok(());
        };
        match self.cover(scratch)? {
            Some(rank) => {
                self.answer(rank);
                Ok(())
            }
            None => self.add(scratch, m, price),
        }
    }

    // Tries each move in order.
    fn expand(&mut self, scratch: &mut Scratch) -> Result<(), Stop>
        ensures lent { Lent self.old self.new }
        ensures counts { ExpandCounts S.Store Q.Queue self.old self.new result }
        ensures granted { ReadyAt K.Cost S.Store Q.Queue self.old self.old → Granted result }
        ensures expands { Q.Queue.ordered self.old.queue.now → ReadyAt K.Cost S.Store Q.Queue self.old self.old → Expands K.Cost S.Store Q.Queue self.old self.new result }
    {
        // over numbers: a move's number is noted of the node that it leads to
        let accepted = self.accepted;
        for m in 0..move_count(&accepted) {
            self.try_move(m, scratch)?;
        }
        Ok(())
    }

    // What is done with the node once it is taken.
    fn visit(&mut self, scratch: &mut Scratch) -> Result<Visited, Stop>
        ensures lent { Lent self.old self.new }
        ensures counts { VisitCounts S.Store Q.Queue self.old self.new result }
        ensures granted { SteadyAt K.Cost S.Store Q.Queue self.old self.old → Granted result }
        ensures visits { Q.Queue.ordered self.old.queue.now → SteadyAt K.Cost S.Store Q.Queue self.old self.old → Visits K.Cost S.Store Q.Queue self.old self.new result }
    {
        self.fetch(scratch);
        if let Some(rank) = self.cover(scratch)? {
            self.answer(rank);
            return Ok(Visited::Skipped);
        }
        if self.agrees(scratch) {
            return Ok(Visited::Found);
        }
        self.keep(scratch)?;
        self.expand(scratch)?;
        Ok(Visited::Expanded)
    }

    // One step, which takes the node.
    pub(crate) fn step(&mut self, scratch: &mut Scratch) -> Result<Visited, Stop>
        ensures lent { Lent self.old self.new }
        ensures counts { TakeCounts S.Store Q.Queue self.old self.new result }
        ensures granted { 0 < length (Q.Queue.entries self.old.queue.now) → EagerAt K.Cost S.Store Q.Queue self.old self.old → Granted result }
        ensures takes { Q.Queue.ordered self.old.queue.now → Names K.Cost (Q.Queue.entries self.old.queue.now) self.old.node → EagerAt K.Cost S.Store Q.Queue self.old self.old → Takes K.Cost S.Store Q.Queue self.old self.new result }
    {
        let Some(_) = self.queue.take() else {
            return Err(Stop::Torn);
        };
        self.visit(scratch)
    }
}
