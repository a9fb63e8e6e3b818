ghost use Rattle.std.specs.Prelude.{◌≡◌, ℕ, ◌+◌, ◌<◌, ◌≤◌, MatchResult};
ghost use Rattle.cost.specs.Costs.{Arithmetic};
ghost use Rattle.cost.specs.Limits.{Within, limited};

use rows::refusals::Refusal;

// A kind of cost. A cost lies plain in memory as an amount and the number of moves joined in it; it means a value of the
// kind's own arithmetic, which has no limit. A cost that a call gives is within the limit: at most 65,535 moves, and an
// amount of at most 1,000,000,000 for each. One found in memory with a larger amount counts in every call as holding
// just that limit.
pub trait Cost: Copy {
    ghost arithmetic: { Arithmetic };

    ghost value: { Self → arithmetic.Value };

    // the moves joined in it
    ghost joins: { Self → ℕ };

    // its amount as it lies in memory
    ghost plain: { Self → ℕ };

    // the amount of a value
    ghost size: { arithmetic.Value → ℕ };

    // The cost of nothing.
    fn nothing() -> Self
        ensures value { value result ≡ arithmetic.nothing }
        ensures joins { joins result ≡ 0 }
        ensures within { Within (plain result) (joins result) };

    // The cost of one move at this price.
    fn price(price: u32) -> Result<Self, Refusal>
        ensures { MatchResult result (λ k. (price ≤ 1000000000) × (value k ≡ arithmetic.priced price) × (joins k ≡ 1) × Within (plain k) (joins k)) (λ e. (1000000000 < price) × (e ≡ Refusal.Price)) };

    // This cost, as the first, joined to that of the rest.
    fn join(self, rest: Self) -> Result<Self, Refusal>
        ensures { MatchResult result (λ k. (joins self + joins rest ≤ 65535) × (value k ≡ arithmetic.joined (value self) (value rest)) × (joins k ≡ joins self + joins rest) × Within (plain k) (joins k)) (λ e. (65535 < joins self + joins rest) × (e ≡ Refusal.Long)) };

    // How many moves are joined in it.
    fn moves(self) -> u16
        ensures { result ≡ joins self };

    // Whether it comes before the other.
    fn precedes(self, other: Self) -> bool
        ensures { result ≡ arithmetic.before (value self) (value other) };

    // Its amount, for printing.
    fn amount(self) -> u64
        ensures { result ≡ size (value self) };

    ghost counts: { (k : Self) → size (value k) ≡ limited (plain k) (joins k) };
}
