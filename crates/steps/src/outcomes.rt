// What the inner functions of a turn tell each other.
ghost use Rattle.std.specs.Prelude.{◌≡◌};
ghost use Rattle.steps.specs.declared.outcomes.Stop.TheVariants.{Torn};

use rows::refusals::Refusal;

// How a step went with the node that it took.
#[derive(Clone, Copy)]
pub enum Visited {
    Skipped,
    Expanded,
    Found,
}

// Why a step breaks off: a call is refused, which happens only where the tables are torn; or there is no space for a row.
#[derive(Clone, Copy)]
pub enum Stop {
    Torn,
    Crowded,
}

impl From<Refusal> for Stop {
    ghost from_gives = { λ _ r. r ≡ Torn };

    fn from(_e: Refusal) -> Stop {
        Stop::Torn
    }
}
