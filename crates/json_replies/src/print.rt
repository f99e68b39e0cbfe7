//! The body of an answer.
ghost use Rattle.std.specs.Prelude.{◌≡◌, IfOk, IsTrue, OnOk};
ghost use Rattle.std.specs.Str.{IsUtf8, is_utf8};
ghost use Rattle.json.specs.Lex.{tokens};
ghost use Rattle.json_replies.specs.Replies.{reply_text, reply_value};
ghost use Rattle.json_replies.specs.Shapes.{Appends};
ghost use Rattle.json_replies.specs.Texts.{has_reply_texts};

use crate::json_text::JsonText;
use crate::refusals::{Refusals, show_partly};
use crate::requests::Requests;
use crate::segments::show_storage;
use crate::shows::Shows;
use crate::views::show_view;
use disk_trait::{Memory, Text};
use media_rows::Reply;
use std::alloc::Global;

/// The body of an answer, as compact JSON (RFC 8259) with keys in byte order. It is empty for
/// `Created`, `Done` and `Media`. `store` is the store's id, `base` what its addresses begin with.
///
/// The reply is one of a good library: its texts and the base are UTF-8, the ids of its objects have
/// their form, its essence texts are such, and its moments lie in the years up to 9999.
pub fn print_reply(alloc: Global, reply: &Reply, store: u128, base: &Text) -> Result<Text, Memory>
    requires texts { IsTrue (has_reply_texts reply.now) }
    requires base { IsTrue (is_utf8 base.now) }
    ensures text { IfOk result (λ text. text ≡ reply_text store base.now reply.now) }
    ensures reads_back { IfOk result (λ text. tokens text ≡ reply_value store base.now reply.now) }
    ensures utf8 { IfOk result IsUtf8 }
{
    let mut out = JsonText::new(alloc);
    show_reply(alloc, reply, store, base, &mut out)?;
    Ok(out.into_text())
}

/// Appends what the reply has as its body.
fn show_reply(
    alloc: Global,
    reply: &Reply,
    store: u128,
    base: &Text,
    out: &mut JsonText,
) -> Result<(), Memory>
    ensures { OnOk result (Appends out.old out.new (reply_value store base.now reply.now)) }
{
    match reply {
        Reply::Created | Reply::Done | Reply::Media(_) => Ok(()),
        Reply::CreatedObjects(objects) => show_storage(alloc, objects, base, out),
        Reply::Accepted(row) => Requests { store }.show(alloc, row, out),
        Reply::Shown(view) => show_view(alloc, view, store, base, out),
        Reply::Refused(refusal) => Refusals.show(alloc, refusal, out),
        Reply::Partly(failed) => show_partly(alloc, failed, out),
    }
}
