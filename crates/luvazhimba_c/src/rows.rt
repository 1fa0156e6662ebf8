//! Rows of threads, as C has them.
ghost use Rattle.std.specs.Prelude.{◌≡◌, ◌<◌, length, take, map, OnOk, IfErr};
ghost use Rattle.luvazhimba_c.specs.declared.refusals.Refusal.TheVariants.{NoRoom};
ghost use Rattle.luvazhimba_c.specs.Rows.{row_of_luv_row, rows_of_luv_rows};

use crate::refusals::Refusal;
use thread_core::Row;

/// A row of threads: its depth, from 0 at the top, and the place of its message, from 0. Where no message stands there,
/// `is_message` is false.
#[repr(C)]
#[derive(Clone, Copy)]
pub struct LuvRow {
    /// 0 at the top.
    pub depth: usize,
    /// Which message it is, from 0, where it is one.
    pub place: usize,
    /// Whether a message stands there.
    pub is_message: bool,
}

/// A row as C has it.
fn c_row(row: &Row) -> LuvRow
    ensures { row_of_luv_row result ≡ row.now }
{
    match row.place {
        Some(place) => LuvRow {
            depth: row.depth,
            place,
            is_message: true,
        },
        None => LuvRow {
            depth: row.depth,
            place: 0,
            is_message: false,
        },
    }
}

/// Copies rows to the front of an array.
pub(crate) fn put_rows(to: &mut [LuvRow], rows: &[Row]) -> Result<(), Refusal>
    ensures ok { OnOk result (rows_of_luv_rows (length rows.now) to.new ≡ rows.now) }
    ensures err { IfErr result (λ refusal. (refusal ≡ NoRoom) × (length to.old < length rows.now)) }
{
    if to.len() < rows.len() {
        return Err(Refusal::NoRoom);
    }
    for at in 0..rows.len() {
        to[at] = c_row(&rows[at]);
    }
    Ok(())
}
