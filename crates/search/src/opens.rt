ghost use Rattle.std.specs.Prelude.{◌≡◌, ℕ, List};
ghost use Rattle.task.specs.Answers.{held};
ghost use Rattle.search.specs.Opens.{OpensOn, Opens};

use crate::jobs::{Searching, Shape};
use cost::costs::Cost;
use queue::queues::Queue;
use rows::refusals::Refusal;
use steps::numbers::{Numbers, Progress};
use steps::tables::Tables;
use store::stores::Store;
use task::accepted::Accepted;
use task::read;

// Opens a job on an accepted file.
fn open_on<K: Cost, S: Store, Q: Queue<K>>(
    accepted: &Accepted<'_>,
    t: &mut Tables<'_, K, S, Q>,
) -> Result<Searching, Refusal>
    ensures { OpensOn K.Cost S.Store Q.Queue (held accepted.now.task) t.old t.new result }
{
    let capacity = t.begin(accepted)?;
    Ok(Searching {
        shape: Shape::of(accepted),
        numbers: Numbers {
            progress: Progress {
                capacity,
                stored: 1,
                cover: None,
            },
            kept: 0,
            waiting: 1,
        },
    })
}

// Opens a job on the task in a file: in new tables, node 0 is stored and waits.
pub fn open<K: Cost, S: Store, Q: Queue<K>>(
    file: &[u8],
    t: &mut Tables<'_, K, S, Q>,
) -> Result<Searching, Refusal>
    ensures { Opens K.Cost S.Store Q.Queue file.now t.old t.new result }
{
    let Ok(accepted) = read(file) else {
        return Err(Refusal::BadFile);
    };
    open_on(&accepted, t)
}
