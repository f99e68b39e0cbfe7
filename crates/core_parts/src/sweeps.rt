//! Objects that are swept.
ghost use Rattle.std.specs.Prelude.{◌≡◌, IfOk, length, nat_lt};
ghost use Rattle.media_rows.specs.declared.change.Change.TheVariants as changes;
ghost use Rattle.media_rows.specs.Changes.{after};
ghost use Rattle.media_rows.specs.Objects.{swept_objects};
ghost use Rattle.core_parts.specs.Conditions.{IsReady};
ghost use Rattle.core_parts.specs.Parts.{only_library, within_serials};

use crate::Parts;
use disk_trait::Memory;
use std::alloc::Global;

impl Parts {
    /// Whether a sweep would remove an object. It takes no memory.
    #[tactic(auto, using(crate::proofs::Swept::some_swept))]
    pub fn is_sweep_due(&self, now: u64) -> bool
        ensures { result
            ≡ nat_lt 0 (length (swept_objects self.now.library.segments self.now.library.objects now)) }
    {
        self.media.first_due(now).is_some()
    }

    /// Removes the first 16 objects that are due, and gives their blocks back.
    pub fn sweep(&self, alloc: Global, now: u64) -> Result<Option<Parts>, Memory>
        requires ready { IsReady self.now.library }
        ensures { IfOk result
            (λ next. only_library next ≡ within_serials (after (changes.SweepStep now) self.now.library)) }
    {
        let media = self.media.sweep(alloc, now)?;
        let registry = self.registry.share()?;
        Ok(self.with_both(media, Some(registry)))
    }
}
