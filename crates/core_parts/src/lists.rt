//! Lists of segments that are answered segment by segment.
ghost use Rattle.std.specs.Prelude.{[], IsTrue};
ghost use Rattle.media_rows.specs.Answer.{change_refusal, list_refusal};
ghost use Rattle.media_rows.specs.Lists.{or_else};
ghost use Rattle.media_rows.specs.Posts.{sorted};
ghost use Rattle.media_rows.specs.Refusals.{IsChange};
ghost use Rattle.media_rows.specs.Sound.{are_posts_good};
ghost use Rattle.core_parts.specs.Conditions.{IsReady};
ghost use Rattle.core_parts.specs.Posting.{given_list, list_by};

use crate::Parts;
use media_book::{ListAdded, lists_are_told_alike};
use media_rows::{BookFault, Segment, SortedPosts};
use std::alloc::Global;

/// What is told of each segment of a list, and the library with those that are kept, unless its serials
/// would end.
#[derive(Drop)]
pub struct ListPosted {
    pub told: SortedPosts,
    pub next: Option<Parts>,
}

impl Parts {
    /// Adds those segments of a list to a flow that can be kept, with the next serials. It is refused where the
    /// flow isn't to change, and where something failed and nothing is kept. A number of serials that passes a
    /// `u64`, were all kept, is want of memory.
    pub fn add_list(
        &self,
        alloc: Global,
        flow: u128,
        posts: &[Segment],
        now: u64,
    ) -> Result<ListPosted, BookFault>
        requires ready { IsReady self.now.library }
        requires bounded { IsTrue (are_posts_good posts.now) }
        ensures { IsChange (or_else (change_refusal self.now.library flow) (list_refusal (sorted self.now.library flow [] posts.now)))
            (list_by self.now.library flow now (sorted self.now.library flow [] posts.now)) (given_list result) }
    {
        lists_are_told_alike();
        let refusal = self.registry.change_refusal(flow);
        if let Some(why) = refusal {
            return Err(BookFault::Refused(why));
        }
        let serial = self.registry.next_serial();
        if (posts.len() as u64) > u64::MAX - serial {
            return Err(BookFault::Memory);
        }
        let ListAdded { media, told } = self.media.add_list(alloc, flow, posts, serial)?;
        match told.unless_refused(alloc) {
            Ok(told) => {
                let registry = self
                    .registry
                    .add_segments(alloc, flow, told.kept.items(), now)?;
                let next = self.with_both(media, registry);
                Ok(ListPosted { told, next })
            }
            Err(why) => Err(BookFault::Refused(why)),
        }
    }
}
