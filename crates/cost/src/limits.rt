ghost use Rattle.std.specs.Prelude.{◌≡◌, ◌+◌, ◌<◌, ◌≤◌, MatchResult};
ghost use Rattle.cost.specs.Limits.{limited};

use rows::operators::HIGHEST_PRICE;
use rows::refusals::Refusal;

// What an amount counts as: at most what so many moves can cost.
pub fn limit(amount: u64, moves: u16) -> u64
    ensures { result ≡ limited amount moves }
{
    amount.min(u64::from(HIGHEST_PRICE) * u64::from(moves))
}

// A price as an amount, refused if it is too high.
pub fn accept_price(price: u32) -> Result<u64, Refusal>
    ensures { MatchResult result (λ a. (price ≤ 1000000000) × (a ≡ price)) (λ e. (1000000000 < price) × (e ≡ Refusal.Price)) }
{
    if price > HIGHEST_PRICE {
        return Err(Refusal::Price);
    }
    Ok(u64::from(price))
}

// The moves of a join, refused if there are too many.
pub fn add_moves(first: u16, rest: u16) -> Result<u16, Refusal>
    ensures { MatchResult result (λ n. (first + rest ≤ 65535) × (n ≡ first + rest)) (λ e. (65535 < first + rest) × (e ≡ Refusal.Long)) }
{
    first.checked_add(rest).ok_or(Refusal::Long)
}
