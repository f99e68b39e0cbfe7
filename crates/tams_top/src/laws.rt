//! Laws of the ends of a run, from a site as it was before to one as it was left. Each function does nothing but
//! call laws that it needs.
ghost use Rattle.tams_top.specs.Laws.{OfRuns, StatusIsKnown, BadWordsAreTold, RefusalsAreTold, DiskFaultsAreTold, LinkFaultsAreTold, StarvingIsTold, LittleIsTouched, DoneIsTold, PlaylistsAreTold, HistoriesAreTold, WholeIsTold};

use site_edge::Site;
use store_opening::damaged_images_stand_for_none;

/// The statuses are 0 to 7.
pub fn statuses_are_known<X: Site>(before: &X, after: &X)
    ensures { OfRuns (X.device before.now) (X.device after.now) StatusIsKnown }
{}

/// Status 1, both ways.
pub fn bad_words_are_told<X: Site>(before: &X, after: &X)
    ensures { OfRuns (X.device before.now) (X.device after.now) BadWordsAreTold }
{}

/// Status 2, both ways.
pub fn refusals_are_told<X: Site>(before: &X, after: &X)
    ensures { OfRuns (X.device before.now) (X.device after.now) RefusalsAreTold }
{
    damaged_images_stand_for_none();
}

/// Statuses 3 and 5, both ways, and to whom status 6 is never told.
pub fn faults_are_told<X: Site>(before: &X, after: &X)
    ensures disk { OfRuns (X.device before.now) (X.device after.now) DiskFaultsAreTold }
    ensures link { OfRuns (X.device before.now) (X.device after.now) LinkFaultsAreTold }
{}

/// Where want of memory, status 4, may end a run.
pub fn starving_is_told<X: Site>(before: &X, after: &X)
    ensures { OfRuns (X.device before.now) (X.device after.now) StarvingIsTold }
{}

/// What commands leave of the site and of the clock.
pub fn little_is_touched<X: Site>(before: &X, after: &X)
    ensures { OfRuns (X.device before.now) (X.device after.now) LittleIsTouched }
{}

/// What status 0 says of `format`, `check`, `migrate` and `workload`, and what a crash leaves of a run of `format` or
/// `migrate`.
pub fn done_is_told<X: Site>(before: &X, after: &X)
    ensures { OfRuns (X.device before.now) (X.device after.now) DoneIsTold }
{}

/// What a run of `manifest` told its peer, and how it ended.
pub fn playlists_are_told<X: Site>(before: &X, after: &X)
    ensures { OfRuns (X.device before.now) (X.device after.now) PlaylistsAreTold }
{
    damaged_images_stand_for_none();
}

/// The one history of a run of `replay`, `serve`, `work` or `deliver`.
pub fn histories_are_told<X: Site>(before: &X, after: &X)
    ensures { OfRuns (X.device before.now) (X.device after.now) HistoriesAreTold }
{}

/// What a run has done where nothing failed.
pub fn a_whole_run_is_told<X: Site>(before: &X, after: &X)
    ensures { OfRuns (X.device before.now) (X.device after.now) WholeIsTold }
{}
