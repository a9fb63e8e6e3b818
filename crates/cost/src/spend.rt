ghost use Rattle.std.specs.Prelude.{◌+◌};
ghost use Rattle.std.proofs.Common.{refl, arith};
ghost use Rattle.cost.specs.Kinds.{spend};

use crate::priced::{Kind, Priced};

// The sum of the prices.
pub struct Sum;

pub type Spend = Priced<Sum>;

impl Kind for Sum {
    ghost arithmetic = { spend };

    ghost meaning = { λ a m. a };

    ghost size = { λ v. v };

    ghost joined = { ◌+◌ };

    fn join_amounts(first: u64, rest: u64) -> u64 {
        first + rest
    }

    fn comes_before(one: (u64, u16), other: (u64, u16)) -> bool {
        one.0 < other.0
    }

    ghost means_nothing = { refl };

    ghost means_price = { λ p. refl };

    ghost means_join = { λ a m b n. refl };

    ghost bounded = { λ a b. Prim.omega arith };

    ghost sized = { λ a m. refl };
}
