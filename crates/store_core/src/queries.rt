//! What is answered to a question.
ghost use Rattle.media_rows.specs.Views.{asked};
ghost use Rattle.core_queries.specs.Replies.{IsReply};

use crate::Core;
use core_queries::query;
use media_rows::{BookFault, Query, Reply};
use std::alloc::Global;

impl Core {
    /// Answers a question: by what it shows of the library, or by its refusal.
    pub fn query(&self, alloc: Global, question: &Query) -> Result<Reply, BookFault>
        ensures { IsReply (asked self.now.library question.now) result }
    {
        query(alloc, &self.parts, question)
    }
}
