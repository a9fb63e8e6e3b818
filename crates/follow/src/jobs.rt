ghost use Rattle.std.specs.Prelude.{◌≡◌, ◌+◌, ◌-◌, ◌*◌, nat_le, nat_lt};
ghost use Rattle.uniform.specs.Tellings.{tells};
ghost use Rattle.follow.specs.Promises.{StepsAsDefined, NeverRefused, FoundIsCheapest, NoPlanIsNone, SpaceSuffices, JobsEnd, OthersUse, Repeatable};

use cost::costs::Cost;
use queue::queues::Queue;
use store::stores::Store;
use uniform::promises::Ending;

// Holds the proof of what a job tells.
fn jobs_tell<K: Cost, S: Store, Q: Queue<K>>()
    ensures never { NeverRefused K.Cost S.Store Q.Queue }
    ensures cheapest { FoundIsCheapest K.Cost S.Store Q.Queue }
    ensures complete { NoPlanIsNone K.Cost S.Store Q.Queue }
    ensures uses { OthersUse K.Cost S.Store Q.Queue }
{}

// Whether there is a plan, as far as a job's ending tells. No working of a job is refused torn; what it found is a cheapest plan, and "no plan" means that there is none; and only a job that found the goal's own node at once leaves its tables new.
pub fn tells<K: Cost, S: Store, Q: Queue<K>>(ending: Ending) -> Option<bool>
    ensures value { result ≡ tells ending }
    ensures never { NeverRefused K.Cost S.Store Q.Queue }
    ensures cheapest { FoundIsCheapest K.Cost S.Store Q.Queue }
    ensures complete { NoPlanIsNone K.Cost S.Store Q.Queue }
    ensures uses { OthersUse K.Cost S.Store Q.Queue }
{
    jobs_tell::<K, S, Q>();
    ending.has_plan()
}

// Holds the proof that the space suffices.
fn space_suffices<K: Cost, S: Store, Q: Queue<K>>()
    ensures { SpaceSuffices K.Cost S.Store Q.Queue }
{}

// Whether a capacity is at least 1 + P × M, for P rows and M moves: then a job is never out of space.
pub fn suffices<K: Cost, S: Store, Q: Queue<K>>(capacity: u16, rows: u64, moves: u64) -> bool
    ensures value { result ≡ nat_lt (rows * moves) capacity }
    ensures space { SpaceSuffices K.Cost S.Store Q.Queue }
{
    space_suffices::<K, S, Q>();
    rows.checked_mul(moves)
        .is_some_and(|most| most < u64::from(capacity))
}

// Holds the proof that jobs end, and do the steps of the definitions.
fn jobs_end<K: Cost, S: Store, Q: Queue<K>>()
    ensures ends { JobsEnd K.Cost S.Store Q.Queue }
    ensures defined { StepsAsDefined K.Cost S.Store Q.Queue }
{}

// The budget with which a job of this capacity that has done so many steps surely ends. Its steps and its ending are those of the definitions.
pub fn steps_left<K: Cost, S: Store, Q: Queue<K>>(capacity: u16, done: u32) -> u32
    ensures value { result ≡ capacity + 1 - done }
    ensures ends { JobsEnd K.Cost S.Store Q.Queue }
    ensures defined { StepsAsDefined K.Cost S.Store Q.Queue }
{
    jobs_end::<K, S, Q>();
    (u32::from(capacity) + 1).saturating_sub(done)
}

// Holds the proof that jobs repeat each other.
fn jobs_repeat<K: Cost, S: Store, Q: Queue<K>, R: Store, P: Queue<K>>()
    ensures { Repeatable K.Cost S.Store Q.Queue R.Store P.Queue }
{}

// Whether a job of the other capacity, in other tables of other makes, finds what one of this capacity does: the same moves in as many steps.
pub fn repeats<K: Cost, S: Store, Q: Queue<K>, R: Store, P: Queue<K>>(
    capacity: u16,
    other: u16,
) -> bool
    ensures value { result ≡ nat_le capacity other }
    ensures alike { Repeatable K.Cost S.Store Q.Queue R.Store P.Queue }
{
    jobs_repeat::<K, S, Q, R, P>();
    capacity <= other
}
