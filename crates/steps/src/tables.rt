ghost use Rattle.steps.specs.Begins.{Root};

use cost::costs::Cost;

// What is noted of a node: its cost, and the node and the number of the move by which its row was met.
#[derive(Clone, Copy)]
pub struct Record<K> {
    pub cost: K,
    pub parent: u16,
    pub step: u16,
}

impl<K: Cost> Record<K> {
    // What is noted of node 0, which no move has met: the cost of nothing, with parent and move 0.
    pub fn root() -> Record<K>
        ensures { Root K.Cost result }
    {
        Record {
            cost: K::nothing(),
            parent: 0,
            step: 0,
        }
    }
}

// The memory that a job works in, lent by the caller: the rows of the nodes side by side, their records, the store of kept
// rows and the queue of waiting nodes.
#[derive(Drop)]
pub struct Tables<'a, K, S, Q> {
    pub rows: &'a mut [u8],
    pub records: &'a mut [Record<K>],
    pub store: S,
    pub queue: Q,
}
