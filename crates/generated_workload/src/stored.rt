//! How many bytes the objects of a store have.
ghost use Rattle.std.specs.Prelude.{◌≡◌, ◌≤◌, ◌^◌, IfSome, IsNone};
ghost use Rattle.generated_workload.specs.StoredBytes.{row_bytes, length_if_stored, stored_bytes_of};

use media_rows::{ObjectState, Row, RowList};

/// The number of bytes of all stored objects among the rows of a snapshot, where it is a `u64`.
pub fn stored_bytes(rows: &RowList) -> Option<u64>
    ensures some { IfSome result (λ n. n ≡ stored_bytes_of rows.now) }
    ensures none { IsNone result → 2 ^ 64 ≤ stored_bytes_of rows.now }
{
    let mut total: u64 = 0;
    for row in rows.items() {
        total = total.checked_add(row_bytes(row))?;
    }
    Some(total)
}

/// The number of bytes that a row's object has, if it is one that is stored.
fn row_bytes(row: &Row) -> u64
    ensures { result ≡ row_bytes row.now }
{
    match row {
        Row::Object(object) => state_bytes(object.state),
        _ => 0,
    }
}

fn state_bytes(state: ObjectState) -> u64
    ensures { result ≡ length_if_stored state }
{
    match state {
        ObjectState::Allocated => 0,
        ObjectState::Stored { length, .. } => length,
    }
}
