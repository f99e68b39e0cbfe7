//! Laws of playlists. Each function does nothing.
ghost use Rattle.hls_manifest.specs.Laws.{ListingsReadBack, OneListing, TargetsAreLeast, WholeObjectsAreNamed};

/// A text spells one listing at most.
pub fn one_listing()
    ensures { OneListing }
{}

/// The target duration of a playlist is the least one that serves.
pub fn targets_are_least()
    ensures { TargetsAreLeast }
{}

/// The playlist of segments of a good library is one that reads back, where the base is an address.
pub fn listings_read_back()
    ensures { ListingsReadBack }
{}

/// A playlist names just the segments of a flow that show whole objects within a range, each as often as it is there.
pub fn whole_objects_are_named()
    ensures { WholeObjectsAreNamed }
{}
