// The tasks that are worked: the sample line, variations of it, and six gates.
use rows::checks::MARK;
use task::tables::Task;

const U: u8 = MARK;

// A task, and the space for nodes that it is worked in.
#[derive(Clone, Copy)]
pub struct Case {
    pub title: &'static str,
    pub capacity: usize,
    pub task: Task<'static>,
}

// A line of a gate and a load, with these moves: each its price, its condition and its effect.
fn line(goal: &'static [u8], moves: &'static [u8], names: &'static [u8]) -> Task<'static> {
    Task {
        values: &[2, 3],
        start: &[0, 0],
        goal,
        moves,
        names,
    }
}

fn sample_line() -> Task<'static> {
    line(
        &[U, 2],
        b"\x02\0\0\0\x00\xff\x01\xff\
            \x05\0\0\0\x01\x00\xff\x01\
            \x03\0\0\0\xff\x01\xff\x02\
            \x14\0\0\0\xff\x00\xff\x02",
        b"\x04open\x03tip\x03run\x05carry",
    )
}

// Carrying costs as much as the other three moves together.
fn cheap_carry() -> Task<'static> {
    line(
        &[U, 2],
        b"\x02\0\0\0\x00\xff\x01\xff\
            \x05\0\0\0\x01\x00\xff\x01\
            \x03\0\0\0\xff\x01\xff\x02\
            \x0a\0\0\0\xff\x00\xff\x02",
        b"\x04open\x03tip\x03run\x05carry",
    )
}

// Nothing brings the load into the hopper.
fn open_and_tip() -> Task<'static> {
    line(
        &[U, 2],
        b"\x02\0\0\0\x00\xff\x01\xff\
            \x05\0\0\0\x01\x00\xff\x01",
        b"\x04open\x03tip",
    )
}

fn no_goal() -> Task<'static> {
    line(&[U, U], b"\x02\0\0\0\x00\xff\x01\xff", b"\x04open")
}

// Six gates to open, each by a move of its own, and one that opens the last three for the price of all three, while the first is
// shut: most rows are met more than once, and many are covered by one that leaves more undefined.
fn six_gates() -> Task<'static> {
    Task {
        values: &[2; 6],
        start: &[0; 6],
        goal: &[1; 6],
        moves: b"\x09\0\0\0\xff\xff\xff\xff\xff\xff\x01\xff\xff\xff\xff\xff\
        \x01\0\0\0\xff\xff\xff\xff\xff\xff\xff\x01\xff\xff\xff\xff\
        \x04\0\0\0\xff\xff\xff\xff\xff\xff\xff\xff\x01\xff\xff\xff\
        \x01\0\0\0\xff\xff\xff\xff\xff\xff\xff\xff\xff\x01\xff\xff\
        \x03\0\0\0\xff\xff\xff\xff\xff\xff\xff\xff\xff\xff\x01\xff\
        \x02\0\0\0\xff\xff\xff\xff\xff\xff\xff\xff\xff\xff\xff\x01\
        \x06\0\0\0\x00\xff\xff\xff\xff\xff\xff\xff\xff\x01\x01\x01",
        names: b"\x05gate0\x05gate1\x05gate2\x05gate3\x05gate4\x05gate5\x04rest",
    }
}

fn titled(title: &'static str, capacity: usize, task: Task<'static>) -> Case {
    Case {
        title,
        capacity,
        task,
    }
}

pub fn cases() -> [Case; 7] {
    [
        titled("the sample line", 16, sample_line()),
        titled("carry at 10", 16, cheap_carry()),
        titled("only open and tip", 16, open_and_tip()),
        titled("a goal that fixes nothing", 16, no_goal()),
        titled("the sample line, space for 4 nodes", 4, sample_line()),
        titled("the sample line, space for 5 nodes", 5, sample_line()),
        titled("six gates", 256, six_gates()),
    ]
}
