ghost use Rattle.std.specs.Prelude.{max};
ghost use Rattle.std.proofs.Common.{refl, arith};
ghost use Rattle.cost.specs.Kinds.{peak};

use crate::priced::{Kind, Priced};

// The largest price, 0 for nothing.
pub struct Highest;

pub type Peak = Priced<Highest>;

impl Kind for Highest {
    ghost arithmetic = { peak };

    ghost meaning = { λ a m. a };

    ghost size = { λ v. v };

    ghost joined = { max };

    fn join_amounts(first: u64, rest: u64) -> u64 {
        first.max(rest)
    }

    fn comes_before(one: (u64, u16), other: (u64, u16)) -> bool {
        one.0 < other.0
    }

    ghost means_nothing = { refl };

    ghost means_price = { λ p. refl };

    ghost means_join = { λ a m b n. refl };

    ghost bounded = { λ a b. Prim.omega arith };

    ghost sized = { λ a m. refl };
}
