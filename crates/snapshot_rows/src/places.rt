//! Where rows stand in a snapshot: by kind, then in the order of their kind.
ghost use Rattle.std.specs.Prelude.{◌≡◌};
ghost use Rattle.media_rows.specs.Segments.{low_before};
ghost use Rattle.snapshot_rows.specs.Within.Places.{IsPlaceOf, place_before};

use media_rows::Row;

/// What a row stands by in a snapshot: the number of its kind, its number in the order of that kind, and the
/// first point of a segment.
#[derive(Clone, Copy)]
pub(crate) struct Place {
    kind: u8,
    number: u128,
    point: Option<i128>,
}

/// Where a row stands.
pub(crate) fn place_of(row: &Row) -> Place
    ensures { IsPlaceOf result row.now }
{
    match row {
        Row::Source(row) => numbered(1, row.id),
        Row::Flow(row) => numbered(2, row.body.id),
        Row::Object(row) => numbered(3, row.serial as u128),
        Row::Segment(row) => Place {
            kind: 4,
            number: row.flow,
            point: row.segment.range.low(),
        },
        Row::Request(row) => numbered(5, row.serial as u128),
        Row::Hook(row) => numbered(6, row.serial as u128),
        Row::Event(row) => numbered(7, row.serial as u128),
        Row::Numbers { .. } => numbered(8, 0),
    }
}

/// The place of a row that is no segment.
fn numbered(kind: u8, number: u128) -> Place
    ensures kind { result.kind ≡ kind }
    ensures number { result.number ≡ number }
    ensures point { result.point ≡ None }
{
    Place {
        kind,
        number,
        point: None,
    }
}

impl Place {
    /// Whether this place stands before another one.
    pub(crate) fn is_before(&self, other: &Place) -> bool
        ensures { result ≡ place_before self.now other.now }
    {
        if self.kind != other.kind {
            return self.kind < other.kind;
        }
        if self.number != other.number {
            return self.number < other.number;
        }
        is_lower(&self.point, &other.point)
    }
}

/// Whether a first point stands before another one; one that is missing stands before all others.
fn is_lower(point: &Option<i128>, other: &Option<i128>) -> bool
    ensures { result ≡ low_before point.now other.now }
{
    match (point, other) {
        (_, None) => false,
        (None, Some(_)) => true,
        (Some(point), Some(other)) => point < other,
    }
}
