ghost use Rattle.std.specs.Prelude.{◌≡◌, ◌+◌, ◌*◌, min};
ghost use Rattle.rows.specs.Tasks.{Task};
ghost use Rattle.steps.specs.Holdings.{StepsAlike, NeverTorn};
ghost use Rattle.follow.specs.Workings.{OpensHold, WorksAlike};

use cost::costs::Cost;

// Holds the proof that a step of tables that hold a run is a step of the run.
fn steps_alike<K: Cost>()
    ensures alike { (task : Task) → StepsAlike K.Cost task }
    ensures whole { (task : Task) → NeverTorn K.Cost task }
{}

// Where the row of a node begins among the row bytes of tables that hold a run. A step of such tables is a step of the run, and they are never torn.
pub fn row_place<K: Cost>(node: u16, variables: u8) -> u32
    ensures value { result ≡ node * variables }
    ensures alike { (task : Task) → StepsAlike K.Cost task }
    ensures whole { (task : Task) → NeverTorn K.Cost task }
{
    steps_alike::<K>();
    u32::from(node) * u32::from(variables)
}

// Holds the proof that opened tables hold a run as it is opened.
fn opens_hold<K: Cost>()
    ensures { (task : Task) → OpensHold K.Cost task }
{}

// How many nodes tables have space for, that hold so many rows, records, kept rows and waiting nodes. A job that began in new tables holds a run as it is opened, with so much space.
pub fn node_space<K: Cost>(rows: usize, records: usize, kept: usize, waiting: usize) -> usize
    ensures value { result ≡ min (min rows records) (min (min kept waiting) 65535) }
    ensures opens { (task : Task) → OpensHold K.Cost task }
{
    opens_hold::<K>();
    rows.min(records)
        .min(kept.min(waiting).min(usize::from(u16::MAX)))
}

// Holds the proof that work on tables that hold a run is work on the run.
fn works_alike<K: Cost>()
    ensures { (task : Task) → WorksAlike K.Cost task }
{}

// How many steps a run has done, whose tables were worked on again. The tables still hold it, and are never torn.
pub fn steps_done<K: Cost>(before: u32, more: u32) -> u64
    ensures value { result ≡ before + more }
    ensures works { (task : Task) → WorksAlike K.Cost task }
{
    works_alike::<K>();
    u64::from(before) + u64::from(more)
}
