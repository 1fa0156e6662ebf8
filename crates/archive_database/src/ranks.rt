//! The rank that a person has on a day: the highest of the grants that hold on it.
ghost use Rattle.std.specs.Prelude.{◌≡◌, ◌&&◌, int_le, List, map, IfOk, IfErr};
ghost use Rattle.std.specs.Int.{int_max};
ghost use Rattle.archive_model.specs.Records.{Grant};
ghost use Rattle.archive_tables.specs.Rows.{grant_result_row, out_of_memory_error};
ghost use Rattle.archive_database.specs.Ranks.{highest_rank_on, highest_rank_with_grant};

use archive_tables::rows::{GrantRow, read_grant};
use sqlite::{Error, Row};

/// The highest rank of the grants that hold on a day, 0 where none does. A person has three grants on a list at most.
pub fn highest_rank(grants: &[Row], day: i64) -> Result<i64, Error>
    ensures found { IfOk result (λ rank. (shown : List Grant) → grants.now ≡ map grant_result_row shown
        → rank ≡ highest_rank_on day shown) }
    ensures fault { IfErr result (λ e. (shown : List Grant) → grants.now ≡ map grant_result_row shown
        → e ≡ out_of_memory_error) }
{
    match grants {
        [first, rest @ ..] => {
            let above = highest_rank(rest, day)?;
            rank_with(first, &above, day)
        }
        [] => Ok(0),
    }
}

/// The higher of this rank and that of a grant, if the grant holds on the day.
fn rank_with(row: &Row, above: &i64, day: i64) -> Result<i64, Error>
    ensures found { IfOk result (λ rank. (g : Grant) → row.now ≡ grant_result_row g
        → rank ≡ highest_rank_with_grant day g above.now) }
    ensures fault { IfErr result (λ e. (g : Grant) → row.now ≡ grant_result_row g → e ≡ out_of_memory_error) }
{
    let grant = read_grant(row)?;
    if holds(&grant, day) {
        return Ok(higher_rank(&grant, above));
    }
    Ok(*above)
}

fn higher_rank(grant: &GrantRow, rank: &i64) -> i64
    ensures { result ≡ int_max grant.now.rank rank.now }
{
    grant.rank.max(*rank)
}

fn holds(grant: &GrantRow, day: i64) -> bool
    ensures { result ≡ (int_le grant.now.from_day day && int_le day grant.now.until_day) }
{
    grant.from_day <= day && day <= grant.until_day
}
