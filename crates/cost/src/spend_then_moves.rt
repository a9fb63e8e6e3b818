ghost use Rattle.std.specs.Prelude.{◌+◌};
ghost use Rattle.std.proofs.Common.{refl, arith};
ghost use Rattle.cost.specs.Kinds.{spend_then_moves, tally};

use crate::priced::{Kind, Priced};

// The sum of the prices; of equal sums, fewer moves come first.
pub struct SumThenMoves;

pub type SpendThenMoves = Priced<SumThenMoves>;

impl Kind for SumThenMoves {
    ghost arithmetic = { spend_then_moves };

    ghost meaning = { tally };

    ghost size = { λ v. v.sum };

    ghost joined = { ◌+◌ };

    fn join_amounts(first: u64, rest: u64) -> u64 {
        first + rest
    }

    fn comes_before(one: (u64, u16), other: (u64, u16)) -> bool {
        one < other
    }

    ghost means_nothing = { refl };

    ghost means_price = { λ p. refl };

    ghost means_join = { λ a m b n. refl };

    ghost bounded = { λ a b. Prim.omega arith };

    ghost sized = { λ a m. refl };
}
