ghost use Rattle.std.specs.Prelude.{◌≡◌, ℕ, ◌<◌, List, length, MatchBool, slice_index_or};
ghost use Rattle.task.specs.Answers.{held};
ghost use Rattle.steps.specs.declared.tables.Record.{Record};
ghost use Rattle.chains.specs.Chains.{Chain, Broken, Reading};
ghost use Rattle.search.specs.Plans.{Serves, PlansOn, CostsOn};
ghost use Rattle.search.specs.Reads.{ReadsPlan, ReadsCost};

use crate::jobs::Found;
use chains::{chain_length, read_chain};
use cost::costs::Cost;
use queue::queues::Queue;
use rows::refusals::Refusal;
use steps::tables::{Record, Tables};
use store::stores::Store;
use task::accepted::Accepted;
use task::read;

impl Found {
    // Whether the file has the shape that the job notes, and row bytes and records have space for as many nodes as its capacity.
    fn is_served<K: Cost, S: Store, Q: Queue<K>>(
        &self,
        accepted: &Accepted<'_>,
        t: &Tables<'_, K, S, Q>,
    ) -> bool
        ensures { MatchBool result (Serves (held accepted.now.task) self.now t.now) (Serves (held accepted.now.task) self.now t.now → ⊥) }
    {
        let capacity = usize::from(self.progress.capacity);
        self.shape.is_of(accepted)
            && capacity <= t.records.len()
            && capacity * accepted.task.values.len() <= t.rows.len()
    }

    // Reads the moves of the found node's chain.
    fn moves<K>(
        &self,
        records: &[Record<K>],
        moves: usize,
        out: &mut [u16],
    ) -> Result<usize, Refusal>
        ensures { Reading records.now moves self.now.node out.old result out.new }
    {
        read_chain(records, self.node, moves, out)
    }

    // Whether the chain of the found node is not broken.
    fn is_chained<K>(&self, records: &[Record<K>], moves: usize) -> bool
        ensures { MatchBool result ((ns : List ℕ) × Chain records.now moves self.now.node ns) (Broken records.now moves self.now.node) }
    {
        chain_length(records, self.node, moves).is_some()
    }

    // The cost noted of the found node.
    fn noted_cost<K: Cost>(&self, records: &[Record<K>]) -> K
        requires { self.now.node < length records.now }
        ensures { (d : Record K) → result ≡ (slice_index_or records.now self.now.node d).cost }
    {
        records[usize::from(self.node)].cost
    }

    // Reads the plan on an accepted file.
    fn plan_on<K: Cost, S: Store, Q: Queue<K>>(
        &self,
        accepted: &Accepted<'_>,
        t: &Tables<'_, K, S, Q>,
        out: &mut [u16],
    ) -> Result<usize, Refusal>
        ensures { PlansOn (held accepted.now.task) self.now t.now out.old result out.new }
    {
        if !self.is_served(accepted, t) {
            return Err(Refusal::Torn);
        }
        self.moves(t.records, accepted.count(), out)
    }

    // Reads the cost on an accepted file.
    fn cost_on<K: Cost, S: Store, Q: Queue<K>>(
        &self,
        accepted: &Accepted<'_>,
        t: &Tables<'_, K, S, Q>,
    ) -> Result<K, Refusal>
        ensures { CostsOn (held accepted.now.task) self.now t.now result }
    {
        if !self.is_served(accepted, t) || !self.is_chained(t.records, accepted.count()) {
            return Err(Refusal::Torn);
        }
        Ok(self.noted_cost(t.records))
    }

    // Writes the moves of the plan into the buffer's first cells, in the order of doing, and answers their count. Refused Torn if
    // the file or the tables are not as the job left them, then Short buffer if there are more moves than cells.
    pub fn plan<K: Cost, S: Store, Q: Queue<K>>(
        &self,
        file: &[u8],
        t: &Tables<'_, K, S, Q>,
        out: &mut [u16],
    ) -> Result<usize, Refusal>
        ensures { ReadsPlan file.now self.now t.now out.old result out.new }
    {
        let Ok(accepted) = read(file) else {
            return Err(Refusal::Torn);
        };
        self.plan_on(&accepted, t, out)
    }

    // The cost noted of the found node. Refused Torn where reading the plan is.
    pub fn cost<K: Cost, S: Store, Q: Queue<K>>(
        &self,
        file: &[u8],
        t: &Tables<'_, K, S, Q>,
    ) -> Result<K, Refusal>
        ensures { ReadsCost file.now self.now t.now result }
    {
        let Ok(accepted) = read(file) else {
            return Err(Refusal::Torn);
        };
        self.cost_on(&accepted, t)
    }
}
