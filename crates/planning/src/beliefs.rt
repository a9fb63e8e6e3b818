ghost use Rattle.std.specs.Prelude.{◌≡◌};
ghost use Rattle.planning.specs.Beliefs.{right, BeliefsAreJudged};
ghost use Rattle.planning.specs.Samples.{SampleRegressed};

// What one may believe of rows, moves and covers.
#[derive(Drop, Copy, Clone)]
pub enum Belief {
    // A cover agrees with every state that the covered row agrees with.
    CoverAgrees,
    // Where a regressed row agrees with a state, the move leads from it to where the row agrees.
    RegressedLeads,
    // A row that agrees with where a move leads agreed before, or is regressed to one that did.
    LedIsRegressed,
    // Each move that regresses a covered row regresses its coverer.
    CovererRegresses,
}

// Holds the proofs: each belief is proved, or refuted by an example.
fn judge()
    ensures { BeliefsAreJudged }
{}

impl Belief {
    // Whether the belief is right: it is proved, or refuted by an example.
    pub fn holds(self) -> bool
        ensures value { result ≡ right self }
        ensures judged { BeliefsAreJudged }
        ensures example { SampleRegressed }
    {
        judge();
        match self {
            Belief::CoverAgrees => true,
            Belief::RegressedLeads => true,
            Belief::LedIsRegressed => true,
            Belief::CovererRegresses => false,
        }
    }
}
