// Keeps rows in both makes of store, asks both, and shows what they answer side by side.
// With any argument it measures them instead.
#![tactic(auto)]

ghost use Rattle.std.specs.Prelude.{◌≡◌, ◌-◌, length, slice_set};
ghost use Rattle.store.specs.Stores.{space_of};
ghost use Rattle.trie.specs.Cells.{blank};

mod measure;

use rows::checks::MARK;
use rows::refusals::Refusal;
use std::mem::size_of;
use std::{env, fmt, io};
use store::keeping::keep_unless_covered;
use store::row_store::RowStore;
use store::stores::Store;
use trie::cells::Cell;
use trie::tries::Trie;

// What both makes of store are lent.
#[derive(Drop)]
struct Memory<'m> {
    bytes: &'m mut [u8],
    cells: &'m mut [Cell],
}

impl Memory<'_> {
    // A new store of each make over this values table.
    fn stores<'s>(&'s mut self, values: &'s [u8]) -> (RowStore<'s, 's>, Trie<'s, 's>) {
        let Memory { bytes, cells } = self;
        (RowStore::new(values, bytes), Trie::new(values, cells))
    }
}

#[derive(Clone, Copy)]
enum Call {
    Cover,
    Keep,
    KeepUnlessCovered,
}

#[derive(Clone, Copy)]
struct Step {
    call: Call,
    row: [u8; 3],
}

fn on(call: Call, a: u8, b: u8, c: u8) -> Step {
    Step {
        call,
        row: [a, b, c],
    }
}

// Over a values table of 2, 3 and 4, with space for 5 rows.
fn steps() -> [Step; 18] {
    let u = MARK;
    [
        on(Call::Cover, 0, 0, 0),
        on(Call::Keep, 1, u, 2),
        on(Call::Keep, 1, u, 2),
        on(Call::Cover, 1, 0, 2),
        on(Call::Cover, 0, 0, 2),
        on(Call::Cover, 1, u, 2),
        on(Call::Cover, u, 0, 2),
        on(Call::Keep, 0, 3, 0),
        on(Call::Cover, 0, 0, 4),
        on(Call::KeepUnlessCovered, 1, 2, 2),
        on(Call::KeepUnlessCovered, u, 1, u),
        on(Call::Keep, 0, 1, 3),
        on(Call::Cover, 0, 1, 3),
        on(Call::Keep, u, u, 0),
        on(Call::Keep, 1, 1, 2),
        on(Call::KeepUnlessCovered, 0, 0, 1),
        on(Call::Keep, u, u, 0),
        on(Call::Cover, 1, 1, 0),
    ]
}

fn answer<S: Store>(s: &mut S, step: &Step) -> Result<Option<u16>, Refusal> {
    match step.call {
        Call::Cover => s.cover(&step.row),
        Call::Keep => s.keep(&step.row).map(|_| None),
        Call::KeepUnlessCovered => keep_unless_covered(s, &step.row),
    }
}

fn show_answer(
    rt: &HostRuntime,
    call: Call,
    answer: Result<Option<u16>, Refusal>,
) -> io::Result<()> {
    match answer {
        Ok(Some(rank)) => print!(rt; " | rank {rank}"),
        Ok(None) => match call {
            Call::Cover => print!(rt; " | nothing"),
            _ => print!(rt; " | kept"),
        },
        Err(e) => {
            let number = e.number();
            print!(rt; " | {number} {e}")
        }
    }
}

impl fmt::Display for Call {
    fn fmt<W: fmt::Write>(&self, f: &mut fmt::Formatter<W>) -> fmt::Result {
        match self {
            Call::Cover => write!(f, "cover"),
            Call::Keep => write!(f, "keep"),
            Call::KeepUnlessCovered => write!(f, "keep unless covered"),
        }
    }
}

impl fmt::Display for Step {
    fn fmt<W: fmt::Write>(&self, f: &mut fmt::Formatter<W>) -> fmt::Result {
        write!(f, "{}", self.call)?;
        for b in self.row {
            if b == MARK {
                write!(f, " u")?;
            } else {
                write!(f, " {b}")?;
            }
        }
        Ok(())
    }
}

fn compare<S: Store, T: Store>(rt: &HostRuntime, rows: &mut S, trie: &mut T) -> io::Result<()> {
    println!(rt; "call | row store | trie")?;
    for step in steps() {
        print!(rt; "{step}")?;
        let first = answer(rows, &step);
        show_answer(rt, step.call, first)?;
        let second = answer(trie, &step);
        show_answer(rt, step.call, second)?;
        println!(rt; "")?;
    }
    let a = rows.count();
    let b = rows.capacity();
    let c = trie.count();
    let d = trie.capacity();
    println!(rt; "rows kept | {a} of {b} | {c} of {d}")
}

fn row_capacity(values: &[u8], bytes: &mut [u8]) -> usize
    ensures value { result ≡ space_of values.now (length bytes.old) }
    ensures same { bytes.new ≡ bytes.old }
{
    let rows = RowStore::new(values, bytes);
    rows.capacity()
}

fn trie_capacity(values: &[u8], cells: &mut [Cell]) -> usize
    ensures value { result ≡ space_of values.now (length cells.old - 1) }
    ensures root { cells.new ≡ slice_set cells.old 0 blank }
{
    let trie = Trie::new(values, cells);
    trie.capacity()
}

// The capacities of both makes over this values table, in that memory.
fn capacities(rt: &HostRuntime, name: &str, values: &[u8], memory: &mut Memory) -> io::Result<()> {
    let a = row_capacity(values, memory.bytes);
    let b = trie_capacity(values, memory.cells);
    println!(rt; "{name} | {a} | {b}")
}

fn show(rt: &HostRuntime) -> io::Result<()> {
    let values = [2u8, 3, 4];
    let mut memory = Memory {
        bytes: &mut [7; 17],
        cells: &mut [Cell::blank(); 18],
    };
    let (mut rows, mut trie) = memory.stores(&values);
    compare(rt, &mut rows, &mut trie)?;
    print!(rt; "cover 0 0")?;
    show_answer(rt, Call::Cover, rows.cover(&[0, 0]))?;
    show_answer(rt, Call::Cover, trie.cover(&[0, 0]))?;
    println!(rt; "")?;
    show_again(rt, &mut memory)
}

// New stores over another values table, in memory that others have used.
fn show_again(rt: &HostRuntime, memory: &mut Memory) -> io::Result<()> {
    let (mut rows, mut trie) = memory.stores(&[1]);
    print!(rt; "new, cover 0")?;
    show_answer(rt, Call::Cover, rows.cover(&[0]))?;
    show_answer(rt, Call::Cover, trie.cover(&[0]))?;
    print!(rt; "; keep 0")?;
    show_answer(
        rt,
        Call::KeepUnlessCovered,
        keep_unless_covered(&mut rows, &[0]),
    )?;
    show_answer(
        rt,
        Call::KeepUnlessCovered,
        keep_unless_covered(&mut trie, &[0]),
    )?;
    println!(rt; "")
}

fn show_capacities(rt: &HostRuntime) -> io::Result<()> {
    let mut memory = Memory {
        bytes: &mut [7; 130],
        cells: &mut [Cell::blank(); 130],
    };
    let size = size_of::<Cell>();
    println!(rt; "bytes in a cell: {size}")?;
    println!(rt; "capacity in 130 | row store | trie")?;
    capacities(rt, "1 variable", &[9], &mut memory)?;
    capacities(rt, "64 variables", &[9; 64], &mut memory)?;
    capacities(rt, "65 variables", &[9; 65], &mut memory)?;
    capacities(rt, "no variable", &[], &mut memory)?;
    capacities(rt, "a variable of no value", &[9, 0], &mut memory)?;
    let mut nothing = Memory {
        bytes: &mut [],
        cells: &mut [],
    };
    capacities(rt, "1 variable, in nothing", &[9], &mut nothing)
}

fn main(rt: HostRuntime) -> io::Result<()> {
    let words = env::args(&rt)?.count();
    if words > 1 {
        return measure::run(&rt);
    }
    show(&rt)?;
    show_capacities(&rt)
}
