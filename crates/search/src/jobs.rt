ghost use Rattle.std.specs.Prelude.{◌<◌};

use steps::numbers::{Numbers, Progress};

// What a job notes of the file that it was opened on: how many variables and moves it has.
#[derive(Clone, Copy)]
pub struct Shape {
    pub(crate) variables: usize,
    pub(crate) moves: usize,
}

// A job that goes on.
#[derive(Drop)]
pub struct Searching {
    pub(crate) shape: Shape,
    pub(crate) numbers: Numbers,
}

// A job that ended at a node whose row agrees with the start.
#[derive(Drop)]
pub struct Found {
    pub(crate) shape: Shape,
    pub(crate) progress: Progress,
    pub(crate) node: u16,
    ghost below: { node < progress.stored },
}

// A job that ended with nothing left to take.
#[derive(Drop)]
pub struct NoPlan {
    pub(crate) progress: Progress,
}

// A job that ended as it had a row to store and no space for it.
#[derive(Drop)]
pub struct OutOfSpace {
    pub(crate) progress: Progress,
}

// A job after some steps.
#[derive(Drop)]
pub enum Worked {
    Searching(Searching),
    Found(Found),
    NoPlan(NoPlan),
    OutOfSpace(OutOfSpace),
}

// Why a working is refused, with the job: the budget is 0; or the file or the tables are torn, after so many steps.
#[derive(Drop)]
pub enum Unworked {
    Idle(Searching),
    Torn(Searching, u32),
}

// What working answers: the job as it then is and the steps done, or why it was refused.
pub type Work = Result<(Worked, u32), Unworked>;
