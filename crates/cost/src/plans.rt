ghost use Rattle.std.specs.Prelude.{◌≡◌, ℕ, ◌+◌, ◌<◌, ◌≤◌, ◌⊎◌, List, ◌++◌, length, sum, MatchResult};
ghost use Rattle.cost.specs.Costs.{NotAfter, cost_of};
ghost use Rattle.cost.specs.Kinds.{spend, spend_then_moves, peak, tally};
ghost use Rattle.cost.specs.Limits.{Within};
ghost use Rattle.cost.specs.Plans.{Largest, Payable, PlanRefused};

use crate::costs::Cost;
use rows::refusals::Refusal;

// The cost of a plan whose moves have these prices, in the order of doing.
pub fn plan_cost<K: Cost>(prices: &[u32]) -> Result<K, Refusal>
    ensures { MatchResult result (λ k. (length prices.now ≤ 65535) × Payable prices.now × (K.Cost.value k ≡ cost_of K.Cost.arithmetic prices.now) × (K.Cost.joins k ≡ length prices.now) × Within (K.Cost.plain k) (K.Cost.joins k)) (λ e. PlanRefused prices.now e) }
{
    if prices.len() > usize::from(u16::MAX) {
        return Err(Refusal::Long);
    }
    let mut cost = K::nothing();
    for price in prices.iter().rev() {
        cost = prepend(*price, cost)?;
    }
    Ok(cost)
}

// The cost of a move at this price and then the rest; refused Price, then Long.
pub fn prepend<K: Cost>(price: u32, rest: K) -> Result<K, Refusal>
    ensures { MatchResult result (λ k. (price ≤ 1000000000) × (K.Cost.value k ≡ K.Cost.arithmetic.joined (K.Cost.arithmetic.priced price) (K.Cost.value rest)) × (K.Cost.joins k ≡ 1 + K.Cost.joins rest) × Within (K.Cost.plain k) (K.Cost.joins k)) (λ e. ((e ≡ Refusal.Price) × (1000000000 < price)) ⊎ ((e ≡ Refusal.Long) × (price ≤ 1000000000) × (65535 < 1 + K.Cost.joins rest))) }
{
    K::price(price)?.join(rest)
}

// Holds the proof of what joining keeps.
fn joining_keeps<K: Cost>()
    ensures kept { (ps qs rs : List ℕ) → NotAfter K.Cost.arithmetic (cost_of K.Cost.arithmetic qs) (cost_of K.Cost.arithmetic rs) → NotAfter K.Cost.arithmetic (cost_of K.Cost.arithmetic (ps ++ qs)) (cost_of K.Cost.arithmetic (ps ++ rs)) }
    ensures rest { (ps qs : List ℕ) → NotAfter K.Cost.arithmetic (cost_of K.Cost.arithmetic qs) (cost_of K.Cost.arithmetic (ps ++ qs)) }
{}

// In every kind of cost: of two plans that begin alike, one whose rest does not cost more does not cost more; and no plan
// costs less than its rest. So whether a plan's rest costs less than another's is asked of the rests alone, as here.
pub fn cheaper_rests<K: Cost>(rest: K, other: K) -> bool
    ensures value { result ≡ K.Cost.arithmetic.before (K.Cost.value rest) (K.Cost.value other) }
    ensures kept { (ps qs rs : List ℕ) → NotAfter K.Cost.arithmetic (cost_of K.Cost.arithmetic qs) (cost_of K.Cost.arithmetic rs) → NotAfter K.Cost.arithmetic (cost_of K.Cost.arithmetic (ps ++ qs)) (cost_of K.Cost.arithmetic (ps ++ rs)) }
    ensures rest { (ps qs : List ℕ) → NotAfter K.Cost.arithmetic (cost_of K.Cost.arithmetic qs) (cost_of K.Cost.arithmetic (ps ++ qs)) }
{
    joining_keeps::<K>();
    rest.precedes(other)
}

// Holds the proof of what plans cost in each kind.
fn plans_cost()
    ensures spend { (ps : List ℕ) → cost_of spend ps ≡ sum ps }
    ensures spend_then_moves { (ps : List ℕ) → cost_of spend_then_moves ps ≡ tally (sum ps) (length ps) }
    ensures peak { (ps : List ℕ) → Largest ps (cost_of peak ps) }
{}

// How many kinds there are. A plan's cost, however long it is: in Spend the sum of the prices, in SpendThenMoves the sum and how
// many they are, in Peak the largest, or 0 where there is none.
pub fn kind_costs() -> u8
    ensures kinds { result ≡ 3 }
    ensures spend { (ps : List ℕ) → cost_of spend ps ≡ sum ps }
    ensures spend_then_moves { (ps : List ℕ) → cost_of spend_then_moves ps ≡ tally (sum ps) (length ps) }
    ensures peak { (ps : List ℕ) → Largest ps (cost_of peak ps) }
{
    plans_cost();
    3
}
