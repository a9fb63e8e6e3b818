ghost use Rattle.std.specs.Prelude.{◌≡◌, ℕ, ◌+◌, ◌<◌, ◌≤◌, ◌^◌};
ghost use Rattle.cost.specs.Costs.{Arithmetic};
ghost use Rattle.cost.specs.Limits.{limited};

use crate::costs::Cost;
use crate::limits::{accept_price, add_moves, limit};
use rows::refusals::Refusal;
use std::marker::PhantomData;

// What sets one kind of cost apart: what an amount and a number of moves mean, and how two of them join and compare. The kinds are
// those of this crate.
pub(crate) trait Kind {
    ghost arithmetic: { Arithmetic };

    // the value of an amount and so many moves
    ghost meaning: { ℕ → ℕ → arithmetic.Value };

    // the amount of a value
    ghost size: { arithmetic.Value → ℕ };

    // the amount of a join
    ghost joined: { ℕ → ℕ → ℕ };

    // The amount of a join.
    fn join_amounts(first: u64, rest: u64) -> u64
        requires { first + rest < 2 ^ 64 }
        ensures { result ≡ joined first rest };

    // Whether the first of two, each an amount and its moves, comes before the other.
    fn comes_before(one: (u64, u16), other: (u64, u16)) -> bool
        ensures { result ≡ arithmetic.before (meaning one.0 one.1) (meaning other.0 other.1) };

    ghost means_nothing: { meaning 0 0 ≡ arithmetic.nothing };

    ghost means_price: { (p : ℕ) → meaning p 1 ≡ arithmetic.priced p };

    ghost means_join: { (a m b n : ℕ) → meaning (joined a b) (m + n) ≡ arithmetic.joined (meaning a m) (meaning b n) };

    ghost bounded: { (a b : ℕ) → joined a b ≤ a + b };

    ghost sized: { (a m : ℕ) → size (meaning a m) ≡ a };
}

// A cost of this kind, plain in memory.
#[derive_where(Clone, Copy)]
pub struct Priced<R> {
    pub amount: u64,
    pub moves: u16,
    pub kind: PhantomData<R>,
}

impl<R: Kind> Priced<R> {
    // What the amount counts as, and the moves.
    fn counted(self) -> (u64, u16)
        ensures { result ≡ (limited self.amount self.moves, self.moves) }
    {
        (self.amount(), self.moves)
    }
}

impl<R: Kind> Cost for Priced<R> {
    ghost arithmetic = { R.arithmetic };

    ghost value = { λ k. R.meaning (limited k.amount k.moves) k.moves };

    ghost joins = { λ k. k.moves };

    ghost plain = { λ k. k.amount };

    ghost size = { R.size };

    ghost counts = { λ k. R.sized (limited k.amount k.moves) k.moves };

    fn nothing() -> Priced<R> {
        Priced {
            amount: 0,
            moves: 0,
            kind: PhantomData,
        }
    }

    fn price(price: u32) -> Result<Priced<R>, Refusal> {
        Ok(Priced {
            amount: accept_price(price)?,
            moves: 1,
            kind: PhantomData,
        })
    }

    fn join(self, rest: Priced<R>) -> Result<Priced<R>, Refusal> {
        let moves = add_moves(self.moves, rest.moves)?;
        Ok(Priced {
            amount: R::join_amounts(self.amount(), rest.amount()),
            moves,
            kind: PhantomData,
        })
    }

    fn moves(self) -> u16 {
        self.moves
    }

    fn precedes(self, other: Priced<R>) -> bool {
        R::comes_before(self.counted(), other.counted())
    }

    fn amount(self) -> u64 {
        limit(self.amount, self.moves)
    }
}
