ghost use Rattle.std.specs.Prelude.{◌+◌, ◌≤◌};

// How far a job has come: the nodes stored, of as many as its capacity, and the last cover, which is the rank most recently answered.
#[derive(Clone, Copy)]
pub struct Progress {
    pub capacity: u16,
    pub stored: u16,
    pub cover: Option<u16>,
    ghost within: { stored ≤ capacity },
    ghost short: { capacity ≤ 65535 },
}

// The numbers of a job that goes on: how far it has come, and the rows kept and the nodes waiting as it left them.
#[derive(Clone, Copy)]
pub struct Numbers {
    pub progress: Progress,
    pub kept: u16,
    pub waiting: u16,
    ghost counted: { kept + waiting ≤ progress.stored },
}

// How a step went. Its node's row was covered, or its moves were tried, and the job goes on; or it ended the job.
#[derive(Clone, Copy)]
pub enum Turned {
    Onward(Numbers),
    Found(u16),
    NoPlan,
    OutOfSpace(Progress),
}
