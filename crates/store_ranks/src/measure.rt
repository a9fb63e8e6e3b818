// How long a cover question takes in both makes, as the kept rows grow.
use crate::Memory;
use rows::checks::MARK;
use std::io;
use std::time::Instant;
use store::stores::Store;
use trie::cells::Cell;

const WIDTH: usize = 16;

const QUESTIONS: u32 = 2000;

// Pseudo-random rows over variables of 4 values: one byte in `marks` is the mark.
// The generator is written out, so that every measurement is of the same rows.
#[derive(Clone, Copy, Drop)]
struct Rows {
    state: u64,
    marks: u32,
}

impl Rows {
    fn number(&mut self) -> u32 {
        self.state = self
            .state
            .wrapping_mul(6364136223846793005)
            .wrapping_add(1442695040888963407);
        (self.state >> 33) as u32
    }

    fn row(&mut self) -> [u8; WIDTH] {
        let mut row = [0; WIDTH];
        for b in &mut row {
            let n = self.number();
            *b = if self.marks > 0 && n % self.marks == 0 {
                MARK
            } else {
                ((n >> 8) % 4) as u8
            };
        }
        row
    }
}

// Keeps rows until so many are kept.
fn fill<S: Store>(s: &mut S, marks: u32, kept: u32) {
    let mut rows = Rows { state: 1, marks };
    for _ in 0..kept {
        let _ = s.keep(&rows.row());
    }
}

// Asks rows without a mark, and answers how many of them a kept row covers.
fn ask<S: Store>(s: &S) -> u32 {
    let mut rows = Rows { state: 2, marks: 0 };
    let mut covered = 0u32;
    for _ in 0..QUESTIONS {
        if let Ok(Some(_)) = s.cover(&rows.row()) {
            covered = covered.saturating_add(1);
        }
    }
    covered
}

// The best of three runs, for each question.
fn time<S: Store>(rt: &HostRuntime, s: &S) -> io::Result<()> {
    let mut covered = 0;
    let mut best = u128::MAX;
    for _ in 0..3 {
        let start = Instant::now(rt)?;
        covered = ask(s);
        best = best.min(start.elapsed(rt)?.as_nanos());
    }
    let each = best / u128::from(QUESTIONS);
    print!(rt; " | {covered} | {each}")
}

fn line(rt: &HostRuntime, marks: u32, kept: u32, memory: &mut Memory) -> io::Result<()> {
    let (mut rows, mut trie) = memory.stores(&[4; WIDTH]);
    fill(&mut rows, marks, kept);
    fill(&mut trie, marks, kept);
    let count = rows.count();
    print!(rt; "1 in {marks} | {count}")?;
    time(rt, &rows)?;
    time(rt, &trie)?;
    println!(rt; "")
}

pub fn run(rt: &HostRuntime) -> io::Result<()> {
    let heap = rt.alloc();
    let mut bytes = vec![in heap; 0u8; 1048576]?;
    let mut cells = vec![in heap; Cell::blank(); 1048577]?;
    let mut memory = Memory {
        bytes: &mut bytes,
        cells: &mut cells,
    };
    println!(rt;
        "marks | kept | row store: covered of {QUESTIONS} | ns a question | trie: covered | ns a question"
    )?;
    for marks in [2u32, 4, 16] {
        for kept in [16u32, 64, 256, 1024, 4096, 16384, 65535] {
            line(rt, marks, kept, &mut memory)?;
        }
    }
    Ok(())
}
