ghost use Rattle.std.specs.Prelude.{None};
ghost use Rattle.steps.specs.Memories.{memory};
ghost use Rattle.solver.specs.Solutions.{FoundReads, Finishes, Solves, Tells};

use crate::solutions::Solved;
use cost::costs::Cost;
use promise::promises::enough_steps;
use queue::queues::Queue;
use rows::refusals::Refusal;
use search::jobs::{Found, Worked};
use search::opens::open;
use steps::tables::Tables;
use store::stores::Store;

// Reads the cost and the plan of a found job.
fn read_found<K: Cost, S: Store, Q: Queue<K>>(
    job: &Found,
    file: &[u8],
    t: &Tables<'_, K, S, Q>,
    out: &mut [u16],
) -> Result<Solved<K>, Refusal>
    ensures { FoundReads file.now job.now t.now out.old out.new result }
{
    let cost = job.cost(file, t)?;
    let count = job.plan(file, t, out)?;
    Ok(Solved::Found(cost, count))
}

// What a job tells that was worked to its end.
fn finish<K: Cost, S: Store, Q: Queue<K>>(
    worked: &Worked,
    file: &[u8],
    t: &Tables<'_, K, S, Q>,
    out: &mut [u16],
) -> Result<Solved<K>, Refusal>
    ensures { Finishes file.now worked.now t.now out.old out.new result }
{
    match worked {
        Worked::Searching(_) => Err(Refusal::Torn),
        Worked::Found(job) => read_found(job, file, t, out),
        Worked::NoPlan(_) => Ok(Solved::NoPlan),
        Worked::OutOfSpace(_) => Ok(Solved::OutOfSpace),
    }
}

// Solves the task in a file in new tables: opens a job, works it to its end and reads the plan. Told are a cheapest plan, its
// moves in the buffer, its cost and how many they are; that there is none; or that the space ran out. Refused Bad file, Used and No
// space as opening is, then Short buffer if there are more moves than cells.
pub fn solve<K: Cost, S: Store, Q: Queue<K>>(
    file: &[u8],
    t: &mut Tables<'_, K, S, Q>,
    out: &mut [u16],
) -> Result<Solved<K>, Refusal>
    ensures calls { Solves K.Cost S.Store Q.Queue file.now t.old t.new out.old out.new result }
    ensures tells { Tells K.Cost file.now (memory S.Store Q.Queue t.old 0 None) out.old out.new result }
{
    let job = open(file, t)?;
    let (worked, _) = job.work(file, t, enough_steps::<K, S, Q, S, Q>())?;
    finish(&worked, file, t, out)
}
