ghost use Rattle.std.specs.Prelude.{◌≡◌};
ghost use Rattle.promise.specs.Promises.{AlwaysKept, AlwaysRepeats};

use cost::costs::Cost;
use queue::queues::Queue;
use store::stores::Store;

// The most nodes of a job: a node's number has 16 bits.
const MOST_NODES: u32 = u16::MAX as u32;

// Holds the proof of the promise.
fn calls_keep<K: Cost, S: Store, Q: Queue<K>, R: Store, P: Queue<K>>()
    ensures kept { AlwaysKept K.Cost S.Store Q.Queue }
    ensures repeated { AlwaysRepeats K.Cost S.Store Q.Queue R.Store P.Queue }
{}

// A budget of steps with which every job ends, whatever its capacity. The promise of every list of calls is held here: never torn, as defined, cheapest, complete (kept) and repeatable (repeated).
pub fn enough_steps<K: Cost, S: Store, Q: Queue<K>, R: Store, P: Queue<K>>() -> u32
    ensures budget { result ≡ 65536 }
    ensures kept { AlwaysKept K.Cost S.Store Q.Queue }
    ensures repeated { AlwaysRepeats K.Cost S.Store Q.Queue R.Store P.Queue }
{
    calls_keep::<K, S, Q, R, P>();
    MOST_NODES + 1
}
