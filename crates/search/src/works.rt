ghost use Rattle.std.specs.Prelude.{◌≡◌, OnErr, ℕ, ◌+◌, ◌<◌, ◌≤◌, List};
ghost use Rattle.task.specs.Answers.{held};
ghost use Rattle.task.specs.Files.{task_of};
ghost use Rattle.search.specs.Works.{Advanced, WorksOn, WorksSuited, Works, Untouched};

use crate::jobs::{Found, NoPlan, OutOfSpace, Searching, Unworked, Work, Worked};
use cost::costs::Cost;
use queue::queues::Queue;
use steps::numbers::Turned;
use steps::tables::Tables;
use store::stores::Store;
use task::accepted::Accepted;
use task::read;

// One step of a job, unless the tables are torn.
fn advance<K: Cost, S: Store, Q: Queue<K>>(
    job: Searching,
    accepted: &Accepted<'_>,
    t: &mut Tables<'_, K, S, Q>,
) -> Result<Worked, Searching>
    ensures advanced { Advanced K.Cost S.Store Q.Queue (task_of (held accepted.now.task)) job t.old t.new result }
    ensures unmoved { OnErr result (t.new ≡ t.old) }
{
    let shape = job.shape;
    let progress = job.numbers.progress;
    match t.turn(accepted, job.numbers) {
        Err(_) => Err(job),
        Ok(Turned::Onward(numbers)) => Ok(Worked::Searching(Searching { shape, numbers })),
        Ok(Turned::Found(node)) => {
            Ok(Worked::Found(Found {
                shape,
                progress,
                node,
            }))
        }
        Ok(Turned::NoPlan) => Ok(Worked::NoPlan(NoPlan { progress })),
        Ok(Turned::OutOfSpace(progress)) => Ok(Worked::OutOfSpace(OutOfSpace { progress })),
    }
}

// Steps on an accepted file, as many as the budget has, unless one of them is the last or the tables are torn.
fn work_on<K: Cost, S: Store, Q: Queue<K>>(
    from: Searching,
    accepted: &Accepted<'_>,
    t: &mut Tables<'_, K, S, Q>,
    budget: u32,
) -> Work
    ensures works { WorksOn K.Cost S.Store Q.Queue (task_of (held accepted.now.task)) from budget t.old t.new result }
    ensures untouched { Untouched from t.old t.new result }
{
    let mut job = from;
    for done in 0..budget {
        match advance(job, accepted, t) {
            Err(j) => return Err(Unworked::Torn(j, done)),
            Ok(Worked::Searching(j)) => job = j,
            Ok(w) => return Ok((w, done + 1)),
        }
    }
    Ok((Worked::Searching(job), budget))
}

// Steps on an accepted file, if it has the shape of that which the job was opened on.
fn work_suited<K: Cost, S: Store, Q: Queue<K>>(
    job: Searching,
    accepted: &Accepted<'_>,
    t: &mut Tables<'_, K, S, Q>,
    budget: u32,
) -> Work
    ensures works { WorksSuited K.Cost S.Store Q.Queue (held accepted.now.task) job budget t.old t.new result }
    ensures untouched { Untouched job t.old t.new result }
{
    if !job.shape.is_of(accepted) {
        return Err(Unworked::Torn(job, 0));
    }
    work_on(job, accepted, t, budget)
}

impl Searching {
    // Works the job with a budget of steps: it stops at the ending or the budget, and before a step where the tables are torn.
    pub fn work<K: Cost, S: Store, Q: Queue<K>>(
        self,
        file: &[u8],
        t: &mut Tables<'_, K, S, Q>,
        budget: u32,
    ) -> Work
        ensures works { Works K.Cost S.Store Q.Queue file.now self budget t.old t.new result }
        ensures untouched { Untouched self t.old t.new result }
    {
        if budget == 0 {
            return Err(Unworked::Idle(self));
        }
        match read(file) {
            Err(_) => Err(Unworked::Torn(self, 0)),
            Ok(accepted) => work_suited(self, &accepted, t, budget),
        }
    }
}
