// Works the same tasks in each pair of makes of store and queue, and in each kind of cost: a line for each, and whether all pairs
// told the same.
#![tactic(auto)]

mod answers;
mod tasks;

use answers::{Answer, Ending, work_out};
use cost::costs::Cost;
use cost::peak::Peak;
use cost::spend::Spend;
use cost::spend_then_moves::SpendThenMoves;
use heap::heaps::Heap;
use queue::entries::Entry;
use queue::queues::Queue;
use queue::scanned_row::ScannedRow;
use rows::refusals::Refusal;
use std::io;
use std::io::Write;
use steps::tables::{Record, Tables};
use store::row_store::RowStore;
use store::stores::Store;
use task::{name, write};
use tasks::{Case, cases};
use trie::cells::Cell;
use trie::tries::Trie;

// The most nodes that there is space for, and the bytes of their rows.
const NODES: usize = 256;

const BYTES: usize = 2048;

// The records that a job may fill and the entries that its queue may hold.
#[derive(Drop)]
struct Nodes<'m, K> {
    records: &'m mut [Record<K>],
    entries: &'m mut [Entry<K>],
}

// What is told of a file in new tables.
fn told<K: Cost, S: Store + Drop, Q: Queue<K> + Drop>(
    file: &[u8],
    records: &mut [Record<K>],
    store: S,
    queue: Q,
) -> Result<Answer, Refusal> {
    let mut t = Tables {
        rows: &mut [0; BYTES],
        records,
        store,
        queue,
    };
    work_out(file, &mut t)
}

// Prints the moves of a plan by name.
fn show_plan(rt: &HostRuntime, file: &[u8], plan: &[u16]) -> io::Result<()> {
    let mut out = rt.stdout();
    for number in plan {
        if let Ok(Some((bytes, _))) = name(file, *number) {
            out.write_all(b" ")?;
            out.write_all(bytes)?;
        }
    }
    Ok(())
}

// Prints what was told in a pair of makes, on a line of its own.
fn show(
    rt: &HostRuntime,
    makes: &str,
    file: &[u8],
    told: &Result<Answer, Refusal>,
) -> io::Result<()> {
    let a = match told {
        Ok(a) => a,
        Err(refusal) => return print!(rt; "\n  {makes}: {refusal}"),
    };
    let ending = &a.ending;
    let steps = a.steps;
    let stored = a.stored;
    print!(rt; "\n  {makes}: {ending} in step {steps}, nodes {stored}")?;
    if let Ending::Found { amount, plan } = ending {
        print!(rt; ", cost {amount}:")?;
        show_plan(rt, file, plan)?;
    }
    Ok(())
}

// What is told of a task's file in each pair of makes, with as many records as the task has space for nodes.
fn told_in_pairs<K: Cost>(
    file: &[u8],
    c: &Case,
    nodes: &mut Nodes<'_, K>,
) -> [(&'static str, Result<Answer, Refusal>); 4] {
    let records = &mut *nodes.records;
    let entries = &mut *nodes.entries;
    let n = c.capacity.min(records.len());
    let values = c.task.values;
    let mut bytes = [0; BYTES];
    let mut cells = [Cell::blank(); BYTES];
    let rows = RowStore::new(values, &mut bytes);
    let first = told(file, &mut records[..n], rows, ScannedRow::new(entries));
    let rows = RowStore::new(values, &mut bytes);
    let second = told(file, &mut records[..n], rows, Heap::new(entries));
    let trie = Trie::new(values, &mut cells);
    let third = told(file, &mut records[..n], trie, ScannedRow::new(entries));
    let trie = Trie::new(values, &mut cells);
    let fourth = told(file, &mut records[..n], trie, Heap::new(entries));
    [
        ("row store, scanned row", first),
        ("row store, heap", second),
        ("trie, scanned row", third),
        ("trie, heap", fourth),
    ]
}

// A line for each pair of makes, and whether they told the same.
fn show_pairs(
    rt: &HostRuntime,
    file: &[u8],
    answers: &[(&'static str, Result<Answer, Refusal>)],
) -> io::Result<()> {
    for (makes, a) in answers {
        show(rt, makes, file, a)?;
    }
    let same = answers.windows(2).all(|pair| pair[0].1 == pair[1].1);
    println!(rt; "\n  all the same: {same}")
}

// A task in one kind of cost.
fn show_case<K: Cost>(
    rt: &HostRuntime,
    kind: &str,
    c: &Case,
    nodes: &mut Nodes<'_, K>,
) -> io::Result<()> {
    let title = c.title;
    print!(rt; "{kind}, {title}")?;
    let mut bytes = [0; 256];
    let length = write(&c.task, &mut bytes).unwrap_or(0).min(256);
    let file = &bytes[..length];
    show_pairs(rt, file, &told_in_pairs(file, c, nodes))
}

// All tasks in one kind of cost.
fn show_kind<K: Cost>(rt: &HostRuntime, kind: &str, nodes: &mut Nodes<'_, K>) -> io::Result<()> {
    for c in cases() {
        show_case(rt, kind, &c, nodes)?;
    }
    Ok(())
}

fn no_record<K: Cost>() -> Record<K> {
    Record {
        cost: K::nothing(),
        parent: 0,
        step: 0,
    }
}

fn no_entry<K: Cost>() -> Entry<K> {
    Entry {
        cost: K::nothing(),
        number: 0,
    }
}

// Three times the same, since the check knows the length of an array only where its type is no parameter (as in `queue_order`).
fn main(rt: HostRuntime) -> io::Result<()> {
    let mut spends = Nodes::<Spend> {
        records: &mut [no_record(); NODES],
        entries: &mut [no_entry(); NODES],
    };
    show_kind(&rt, "Spend", &mut spends)?;
    let mut spends_then_moves = Nodes::<SpendThenMoves> {
        records: &mut [no_record(); NODES],
        entries: &mut [no_entry(); NODES],
    };
    show_kind(&rt, "SpendThenMoves", &mut spends_then_moves)?;
    let mut peaks = Nodes::<Peak> {
        records: &mut [no_record(); NODES],
        entries: &mut [no_entry(); NODES],
    };
    show_kind(&rt, "Peak", &mut peaks)
}
