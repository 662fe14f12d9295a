//! Rows of the caller, one for each item.

ghost use Rattle.std.specs.Prelude.{◌≡◌, ◌<◌, ◌≤◌, ℕ, IfSome, List, length, map};
ghost use Rattle.x509_c.specs.Rows.{AreTold, ContinuesRows, RowsShow, numbered, numbered_from};

use crate::status::{OK, OUT_OF_MEMORY};

/// What C sees as a row.
pub(crate) trait HasRow {
    /// The row.
    type Row: Copy;

    /// What an item is, without where it lies in memory.
    ghost Value: { Type 0 };

    ghost view: { Self → Value };

    /// What a row shows of it.
    ghost Shows: { Self.Row → Value → Type 0 };

    /// The row of an item.
    fn row(&self) -> Self::Row
        ensures { Shows result (view self.now) };
}

/// Writes the rows of items, in order, as many as there are rows.
pub(crate) fn put_rows<T: HasRow>(rows: &mut [T::Row], items: &[T])
    ensures { RowsShow T.Shows rows.new (map T.view items.now) }
{
    let count = rows.len().min(items.len());
    for i in 0..count {
        rows[i] = items[i].row();
    }
}

/// What C sees as a row that tells the number of the member that it belongs to.
pub(crate) trait HasNumberedRow {
    /// The row.
    type Row: Copy;

    /// What an item is, without where it lies in memory.
    ghost Value: { Type 0 };

    ghost view: { Self → Value };

    /// What a row shows of the member's number and of the item.
    ghost Shows: { Self.Row → ℕ × Value → Type 0 };

    /// The row of an item of the member with this number.
    fn numbered_row(&self, number: usize) -> Self::Row
        ensures { Shows result (number, view self.now) };
}

/// Which items the members of a list have.
pub(crate) trait ItemsOf<M, T: HasNumberedRow> {
    ghost own: { M → List T };

    /// Those of a member.
    fn items(member: &M) -> &[T]
        ensures { result.now ≡ own member.now };
}

/// Writes the rows of a member's items behind the rows that are written, as many as have room, and gives how many are written then.
fn put_numbered<T: HasNumberedRow>(
    rows: &mut [T::Row],
    written: usize,
    number: usize,
    items: &[T],
) -> usize
    requires { written ≤ length rows.old }
    ensures { ContinuesRows T.Shows written rows.old result rows.new (numbered number (map T.view items.now)) }
{
    let count = items.len().min(rows.len() - written);
    for i in 0..count {
        rows[written + i] = items[i].numbered_row(number);
    }
    written + count
}

/// Writes the rows of all members' items, in order, as many as there are rows.
fn put_items<T: HasNumberedRow, M, S: ItemsOf<M, T>>(rows: &mut [T::Row], members: &[M])
    ensures { RowsShow T.Shows rows.new (numbered_from 0 (map (λ m. map T.view (S.own m)) members.now)) }
{
    let mut written = 0;
    for i in 0..members.len() {
        written = put_numbered(rows, written, i, S::items(&members[i]));
    }
}

/// How many items the members have; none where no number tells it.
fn count_items<T: HasNumberedRow, M, S: ItemsOf<M, T>>(members: &[M]) -> Option<usize>
    ensures { IfSome result (λ count. count ≡ length (numbered_from 0 (map (λ m. map T.view (S.own m)) members.now))) }
{
    let mut count = 0usize;
    for i in 0..members.len() {
        count = count.checked_add(S::items(&members[i]).len())?;
    }
    Some(count)
}

/// Writes the rows of all members' items, in order, as many as there are rows, and counts all of them; want of memory where no number tells
/// how many there are.
pub(crate) fn tell_items<T: HasNumberedRow, M, S: ItemsOf<M, T>>(
    rows: &mut [T::Row],
    count: &mut usize,
    members: &[M],
) -> u32
    ensures { AreTold T.Shows (numbered_from 0 (map (λ m. map T.view (S.own m)) members.now)) rows.old count.old rows.new count.new result }
{
    match count_items::<T, M, S>(members) {
        Some(counted) => {
            put_items::<T, M, S>(rows, members);
            *count = counted;
            OK
        }
        None => OUT_OF_MEMORY,
    }
}
