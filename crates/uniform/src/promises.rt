ghost use Rattle.std.specs.Prelude.{◌≡◌, ◌+◌, ◌≤◌, nat_le};
ghost use Rattle.uniform.specs.Promises.{FoundIsCheapest, NoPlanIsNone, RunsAreOrderly, FewNodes, EndsBy, JoinsFew, GoAlike};
ghost use Rattle.uniform.specs.Tellings.{tells, rooms};

use crate::settings::Setting;

// How a run of the search ends.
#[derive(Drop, Copy, Clone)]
pub enum Ending {
    // A node's row holds where a plan may begin.
    Found,
    // Nothing waits.
    NoPlan,
    // As many nodes are stored as there may be.
    OutOfSpace,
}

impl Ending {
    // Whether there is a plan, as far as the ending tells.
    pub fn has_plan(self) -> Option<bool>
        ensures { result ≡ tells self }
    {
        match self {
            Ending::Found => Some(true),
            Ending::NoPlan => Some(false),
            Ending::OutOfSpace => None,
        }
    }
}

// Holds the proof of what is found.
fn found_is_cheapest<S: Setting>()
    ensures { FoundIsCheapest S.Setting.arithmetic S.Setting.space }
{}

// Holds the proof that no plan is missed.
fn no_plan_is_none<S: Setting>()
    ensures { NoPlanIsNone S.Setting.arithmetic S.Setting.space }
{}

// Whether there is a plan, as far as an ending tells: what is found is a cheapest plan, and "no plan" means that there is none.
pub fn tells<S: Setting>(ending: Ending) -> Option<bool>
    ensures value { result ≡ tells ending }
    ensures cheapest { FoundIsCheapest S.Setting.arithmetic S.Setting.space }
    ensures complete { NoPlanIsNone S.Setting.arithmetic S.Setting.space }
{
    found_is_cheapest::<S>();
    no_plan_is_none::<S>();
    ending.has_plan()
}

// Holds the proof of how many nodes there can be, and of what a run holds.
fn few_nodes<S: Setting>()
    ensures few { FewNodes S.Setting.arithmetic S.Setting.space }
    ensures orderly { RunsAreOrderly S.Setting.arithmetic S.Setting.space }
{}

// The capacity with which a run is never out of space, 1 + P × M for P distinct rows and M moves; nothing where 64 bits do not hold it.
pub fn ample_capacity<S: Setting>(rows: u64, moves: u64) -> Option<u64>
    ensures value { result ≡ rooms rows moves }
    ensures few { FewNodes S.Setting.arithmetic S.Setting.space }
    ensures orderly { RunsAreOrderly S.Setting.arithmetic S.Setting.space }
{
    few_nodes::<S>();
    rows.checked_mul(moves)?.checked_add(1)
}

// Holds the proof that a run ends.
fn ends_by<S: Setting>(capacity: u16)
    ensures { EndsBy S.Setting.arithmetic S.Setting.space capacity (capacity + 1) }
{}

// The step by which a run of this capacity ends.
pub fn last_step<S: Setting>(capacity: u16) -> u32
    ensures value { result ≡ capacity + 1 }
    ensures ends { EndsBy S.Setting.arithmetic S.Setting.space capacity result }
{
    ends_by::<S>(capacity);
    u32::from(capacity) + 1
}

// Holds the proof of how many moves a cost joins.
fn joins_few<S: Setting>(node: u16)
    ensures { JoinsFew S.Setting.arithmetic S.Setting.space node node }
{}

// The most moves that the cost of a node of this number joins: with at most 65,535 nodes one more join is never too long.
pub fn most_joins<S: Setting>(node: u16) -> u16
    ensures value { result ≡ node }
    ensures few { JoinsFew S.Setting.arithmetic S.Setting.space node result }
{
    joins_few::<S>(node);
    node
}

// Holds the proof that runs go alike.
fn go_alike<S: Setting>(capacity: u16, other: u16)
    ensures { capacity ≤ other → GoAlike S.Setting.arithmetic S.Setting.space capacity other }
{}

// Whether a run of the other capacity does all that one of this capacity does: what this one finds, that one finds, with the same moves, nodes and steps.
pub fn suffices<S: Setting>(capacity: u16, other: u16) -> bool
    ensures value { result ≡ nat_le capacity other }
    ensures alike { capacity ≤ other → GoAlike S.Setting.arithmetic S.Setting.space capacity other }
{
    go_alike::<S>(capacity, other);
    capacity <= other
}
