//! Laws of runs over a small store. Each function does nothing but call laws that it needs.
ghost use Rattle.run_examples.specs.Premises.{PremisesAreMet};

use store_commands::fresh_files_stand;
use tams_words::words_as_worked;

/// An image, a site and a clock meet each premise of a run of `replay`, `serve` and `work`.
pub fn premises_are_met()
    ensures { PremisesAreMet }
{
    fresh_files_stand();
    words_as_worked();
}
