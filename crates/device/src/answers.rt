ghost use Rattle.std.specs.Prelude.{◌≡◌, ℕ, ◌<◌, ◌≤◌, List, [], length, Ok, MatchBool};
ghost use Rattle.task.specs.Answers.{held};
ghost use Rattle.task.specs.Files.{reading};
ghost use Rattle.device.specs.Texts.{Puts};
ghost use Rattle.device.specs.Answers.{longest, Tells, Shows, OneText, CostMeans, NoneMeans, SpaceMeans, Enough, most};
ghost use Rattle.device.specs.Searches.{Searched};
ghost use Rattle.store.specs.Stores.{space_of};

use crate::{write_plan, write_text};
use cost::costs::Cost;
use cost::spend::Spend;
use heap::heaps::Heap;
use queue::entries::Entry;
use queue::queues::Queue;
use rows::refusals::Refusal;
use solver::solutions::Solved;
use solver::solves::solve;
use steps::tables::{Record, Tables};
use store::stores::Store;
use task::accepted::Accepted;
use task::{LONGEST_FILE, read};
use trie::cells::Cell;
use trie::tries::Trie;

// The nodes that there is space for, whatever their rows.
const NODES: usize = 1024;

// The bytes for the nodes' rows, and the cells for the kept ones, one more.
const BYTES: usize = 4096;

const CELLS: usize = BYTES + 1;

// An input that was read as a task.
#[derive(Clone, Copy)]
struct Input<'a> {
    bytes: &'a [u8],
    accepted: Accepted<'a>,
    ghost reads: { reading bytes.now ≡ Ok (held accepted.task) },
}

// Searches in new tables of the device's sizes, over any store and queue.
fn search_with<S: Store, Q: Queue<Spend>>(
    input: &Input<'_>,
    t: &mut Tables<'_, Spend, S, Q>,
    moves: &mut [u16; NODES],
) -> Result<Solved<Spend>, Refusal>
    requires rows { length t.old.rows.now ≡ 4096 }
    requires records { length t.old.records.now ≡ 1024 }
    requires table { S.Store.table t.old.store ≡ input.now.accepted.task.values.now }
    requires kept { S.Store.kept t.old.store ≡ [] }
    requires space { S.Store.space t.old.store ≡ space_of input.now.accepted.task.values.now 4096 }
    requires waiting { Q.Queue.entries t.old.queue ≡ [] }
    requires room { Q.Queue.room t.old.queue ≡ 1024 }
    ensures { Searched (held input.now.accepted.task) moves.new result }
{
    solve(input.bytes, t, moves)
}

// Searches for a plan of the task in an input; the plan's moves are then in the first of the lent cells.
fn search(input: &Input<'_>, moves: &mut [u16; NODES]) -> Result<Solved<Spend>, Refusal>
    ensures { Searched (held input.now.accepted.task) moves.new result }
{
    let mut rows = [0; BYTES];
    let cost = Spend::nothing();
    let mut records = [Record {
        cost,
        parent: 0,
        step: 0,
    }; NODES];
    let mut cells = [Cell::blank(); CELLS];
    let mut entries = [Entry { cost, number: 0 }; NODES];
    let mut t = Tables {
        rows: &mut rows,
        records: &mut records,
        store: Trie::new(input.accepted.task.values, &mut cells),
        queue: Heap::new(&mut entries),
    };
    search_with(input, &mut t, moves)
}

// The bytes of the longest input that is read.
pub const LONGEST: usize = LONGEST_FILE;

// The bytes that suffice for every answer.
const ANSWER: usize = 41_962;

// How many bytes suffice for every answer: with as many, `answer` refuses nothing.
pub fn longest_answer() -> usize
    ensures { result ≡ most }
{
    ANSWER
}

// Whether an input is longer than what is read.
fn is_too_long(input: &[u8]) -> bool
    ensures { MatchBool result (longest < length input.now) (length input.now ≤ longest) }
{
    input.len() > LONGEST
}

// Writes what a search tells of a task.
fn tell(
    input: &Input<'_>,
    solved: Solved<Spend>,
    moves: &[u16; NODES],
    out: &mut [u8],
) -> Result<usize, Refusal>
    requires { Searched (held input.now.accepted.task) moves.now (Ok solved) }
    ensures { (text : List ℕ) × Tells (held input.now.accepted.task) text × Puts text out.old result out.new }
{
    match solved {
        Solved::Found(cost, count) => {
            write_plan(&input.accepted, cost.amount(), &moves[0..count], out)
        }
        Solved::NoPlan => write_text(b"no plan\n", out),
        Solved::OutOfSpace => write_text(b"out of space\n", out),
    }
}

// Searches for a plan of a task and writes what that tells.
fn answer_for(input: &Input<'_>, out: &mut [u8]) -> Result<usize, Refusal>
    ensures { (text : List ℕ) × Tells (held input.now.accepted.task) text × Puts text out.old result out.new }
{
    let mut moves = [0; NODES];
    let solved = search(input, &mut moves)?;
    tell(input, solved, &moves, out)
}

// Answers an input by a text in the buffer, and tells its length: the cost of a cheapest plan of the task and the names of its moves,
// or a line that says why there is none. Refused Short buffer if the text does not fit; then nothing is written.
pub fn answer(input: &[u8], out: &mut [u8]) -> Result<usize, Refusal>
    ensures shown { (text : List ℕ) × Shows input.now text × Puts text out.old result out.new }
    ensures one { OneText }
    ensures cheapest { CostMeans }
    ensures none { NoneMeans }
    ensures space { SpaceMeans }
    ensures enough { Enough out.old result }
{
    if is_too_long(input) {
        return write_text(b"too long\n", out);
    }
    match read(input) {
        Err(_) => write_text(b"refused 7\n", out),
        Ok(accepted) => answer_for(
            &Input {
                bytes: input,
                accepted,
            },
            out,
        ),
    }
}
