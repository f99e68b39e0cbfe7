//! Laws of the requests and of stored bytes. Each function does nothing.
ghost use Rattle.generated_workload.specs.StoredBytes.{StoredBytesAreTheObjects};
ghost use Rattle.generated_workload.specs.Workload.{HalfQueryIsSpelled};

/// The rows of a library have the bytes of its objects.
pub fn stored_bytes_are_the_objects()
    ensures { StoredBytesAreTheObjects }
{}

/// The query of the request that deletes is `timerange=%5B0%3A0_T%3A0%29`, T being the second at which
/// the first half of the segments ends.
pub fn half_query_is_spelled()
    ensures { HalfQueryIsSpelled }
{}
