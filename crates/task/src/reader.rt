ghost use Rattle.std.specs.Prelude.{◌≡◌, ◌+◌, ◌<◌, ◌≤◌, true, length};
ghost use Rattle.task.specs.Files.{place, size, body, bodies, tiles};
ghost use Rattle.task.specs.Answers.{held};
ghost use Rattle.task.specs.Laws.{Reads, Accepts};
ghost use Rattle.task.specs.Layouts.{Restores};

use crate::accepted::Accepted;
use crate::contents::Contents;
use crate::faults::Fault;
use crate::tables::Task;
use crate::word;
use std::ops::Range;

// The bytes of the contents, which are five entries of a place and a length.
pub(crate) const CONTENTS: usize = 40;

impl<'a> Contents<'a> {
    // Where body i begins and ends.
    fn range(&self, i: usize) -> Range<usize>
        requires { i < 5 }
        ensures start { result.start ≡ place self.now.file.now i }
        ensures end { result.end ≡ place self.now.file.now i + size self.now.file.now i }
    {
        // as: Rust has no From of u32 for usize
        let start = word(self.file, 8 * i) as usize;
        start..start + word(self.file, 8 * i + 4) as usize
    }

    // Whether the first body begins at 40, each other where the one before it ends, and the last ends with the file.
    fn is_tiled(&self) -> bool
        ensures { result ≡ tiles self.now.file.now }
    {
        self.range(0).start == CONTENTS
            && self.range(0).end == self.range(1).start
            && self.range(1).end == self.range(2).start
            && self.range(2).end == self.range(3).start
            && self.range(3).end == self.range(4).start
            && self.range(4).end == self.file.len()
    }

    // Body i, as that part of the file.
    fn body(&self, i: usize) -> &'a [u8]
        requires few { i < 5 }
        requires within { place self.now.file.now i + size self.now.file.now i ≤ length self.now.file.now }
        ensures { result.now ≡ body self.now.file.now i }
    {
        let range = self.range(i);
        &self.file[range.start..range.end]
    }

    // The five bodies, as parts of the file.
    fn split(&self) -> Task<'a>
        requires { tiles self.now.file.now ≡ true }
        ensures { held result ≡ bodies self.now.file.now }
    {
        Task {
            values: self.body(0),
            start: self.body(1),
            goal: self.body(2),
            moves: self.body(3),
            names: self.body(4),
        }
    }
}

// The five bodies of a file, or the first fault in order.
fn parse(file: &[u8]) -> Result<Accepted<'_>, Fault>
    ensures { Reads file.now result }
{
    if file.len() < CONTENTS {
        return Err(Fault::Stub);
    }
    let contents = Contents { file };
    if !contents.is_tiled() {
        return Err(Fault::Contents);
    }
    let task = contents.split();
    task.check()?;
    Ok(Accepted { task })
}

// Reads a task file: its five bodies as parts of it, or the fault that refuses it.
pub fn read(file: &[u8]) -> Result<Accepted<'_>, Fault>
    ensures reading { Reads file.now result }
    ensures accepted { Accepts file.now result }
    ensures restored { Restores file.now result }
{
    parse(file)
}
