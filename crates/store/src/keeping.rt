ghost use Rattle.std.specs.Prelude.{◌≡◌};
ghost use Rattle.store.specs.Stores.{UnlessCovered, StillUnless};

use crate::stores::Store;
use rows::refusals::Refusal;

// Keeps the row unless a kept row covers it, and answers the rank of that one.
pub fn keep_unless_covered<S: Store>(s: &mut S, row: &[u8]) -> Result<Option<u16>, Refusal>
    ensures answer { UnlessCovered (S.table s.old) (S.kept s.old) (S.space s.old) row.now (S.kept s.new) result }
    ensures still { StillUnless result s.old s.new }
    ensures values { S.table s.new ≡ S.table s.old }
    ensures space { S.space s.new ≡ S.space s.old }
    ensures lender { S.lender s.new ≡ S.lender s.old }
{
    let rank = s.cover(row)?;
    if rank.is_none() {
        s.keep(row)?;
    }
    Ok(rank)
}
