#![tactic(auto)]

use description::{LONGEST, describe};
use std::io;
use std::io::{BufReader, Read};

// The bytes that are read: of a longer input only the first, one byte more than the longest file, which tells.
const FIRST: usize = LONGEST + 1;

// Describes the task file on standard input.
fn main(rt: HostRuntime) -> io::Result<()> {
    let heap = rt.alloc();
    // as: Rust has no From of usize for u64
    let first = rt.stdin().take(FIRST as u64);
    // Each read asks for all that is still wanted: where input comes in packets, what a read leaves of one is lost. One place more
    // than is filled, so that the end is met without more memory.
    let mut input = Vec::with_capacity(heap, FIRST + 1)?;
    BufReader::with_capacity(heap, FIRST, first)?.read_to_end(&mut input)?;
    rt.print(describe(heap, input.as_slice())?)
}
