// What a job tells, in whatever makes and kind of cost it is worked.
use arrayvec::ArrayVec;
use cost::costs::Cost;
use queue::queues::Queue;
use rows::refusals::Refusal;
use search::jobs::{Found, Worked};
use search::opens::open;
use std::fmt;
use steps::tables::Tables;
use store::stores::Store;

// The steps after which a job is given up; no job here has so many.
const TURNS: u32 = 4096;

// The longest plan that is read.
const LONGEST: usize = 16;

// How a job ended.
#[derive(PartialEq, Drop)]
pub enum Ending {
    Found {
        amount: u64,
        plan: ArrayVec<u16, LONGEST>,
    },
    NoPlan,
    OutOfSpace,
    Endless,
}

// What is told of a job: how it ended, in which step, and how many nodes were stored.
#[derive(PartialEq, Drop)]
pub struct Answer {
    pub ending: Ending,
    pub steps: u32,
    pub stored: u16,
}

impl fmt::Display for Ending {
    fn fmt<W: fmt::Write>(&self, f: &mut fmt::Formatter<W>) -> fmt::Result {
        match self {
            Ending::Found { amount: _, plan: _ } => write!(f, "found"),
            Ending::NoPlan => write!(f, "no plan"),
            Ending::OutOfSpace => write!(f, "out of space"),
            Ending::Endless => write!(f, "endless"),
        }
    }
}

// The ending of a found job.
fn found<K: Cost, S: Store, Q: Queue<K>>(
    job: &Found,
    file: &[u8],
    t: &Tables<'_, K, S, Q>,
) -> Result<Ending, Refusal> {
    let cost = job.cost(file, t)?;
    let mut moves = [0; LONGEST];
    let count = job.plan(file, t, &mut moves)?;
    let mut plan = ArrayVec::from(moves);
    plan.truncate(count);
    Ok(Ending::Found {
        amount: cost.amount(),
        plan,
    })
}

// What is told of a job that has ended.
fn finish<K: Cost, S: Store, Q: Queue<K>>(
    worked: &Worked,
    file: &[u8],
    t: &Tables<'_, K, S, Q>,
) -> Result<Ending, Refusal> {
    match worked {
        Worked::Searching(_) => Ok(Ending::Endless),
        Worked::Found(j) => found(j, file, t),
        Worked::NoPlan(_) => Ok(Ending::NoPlan),
        Worked::OutOfSpace(_) => Ok(Ending::OutOfSpace),
    }
}

// Opens a job in new tables, and works it step by step to its end.
pub fn work_out<K: Cost, S: Store, Q: Queue<K>>(
    file: &[u8],
    t: &mut Tables<'_, K, S, Q>,
) -> Result<Answer, Refusal> {
    let mut job = open(file, t)?;
    let mut steps = 0u32;
    for _ in 0..TURNS {
        // one step at a time, so that going on with a job is run, too
        let (worked, done) = job.work(file, t, 1)?;
        steps = steps.saturating_add(done);
        match worked {
            Worked::Searching(j) => job = j,
            ended => {
                return Ok(Answer {
                    ending: finish(&ended, file, t)?,
                    steps,
                    stored: ended.stored(),
                });
            }
        }
    }
    Ok(Answer {
        ending: Ending::Endless,
        steps,
        stored: 0,
    })
}
