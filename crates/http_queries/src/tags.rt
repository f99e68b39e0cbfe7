//! Tests on tags.
ghost use Rattle.std.specs.Prelude.{◌≡◌, ◌≤◌, IfOk, length};
ghost use Rattle.media_rows.specs.declared.command.TagTest.TheVariants.{Exists};
ghost use Rattle.http_queries.specs.Filters.{exists_test, tag_test, tag_tests};

use crate::numbers::read_truth;
use crate::pairs::Pair;
use disk_trait::{Listed, Memory, Text};
use media_rows::{TagTest, TagTests};
use std::alloc::Global;

/// Bytes of `tag.`.
const TAG: usize = 4;

/// Bytes of `tag_exists.`.
const TAG_EXISTS: usize = 11;

/// The tests on tags, in the query's order.
pub(crate) fn read_tag_tests(alloc: Global, pairs: &[Pair]) -> Result<TagTests, Memory>
    ensures { IfOk result (λ tests. tests ≡ tag_tests pairs.now) }
{
    let mut tests = Listed::new(alloc);
    for pair in pairs {
        if let Some(test) = read_tag_test(alloc, pair)? {
            tests.push(test)?;
        }
    }
    Ok(tests)
}

/// The test on a tag that a pair asks for, where it does.
fn read_tag_test(alloc: Global, pair: &Pair) -> Result<Option<TagTest>, Memory>
    ensures { IfOk result (λ test. test ≡ tag_test pair.now) }
{
    let name = pair.name.bytes();
    if name.starts_with(b"tag.") {
        let name = Text::from_bytes(alloc, &name[TAG..])?;
        return Ok(Some(TagTest::Equals(name, pair.value.copy(alloc)?)));
    }
    if name.starts_with(b"tag_exists.") {
        return exists_test(alloc, pair);
    }
    Ok(None)
}

/// The test whether a tag is there, where the value is a truth value.
#[tactic(auto, unfolding(crate::specs::Filters::exists_test))]
fn exists_test(alloc: Global, pair: &Pair) -> Result<Option<TagTest>, Memory>
    requires { 11 ≤ length pair.now.name }
    ensures { IfOk result (λ test. test ≡ exists_test pair.now) }
{
    let name = Text::from_bytes(alloc, &pair.name.bytes()[TAG_EXISTS..])?;
    match read_truth(pair.value.bytes()) {
        Some(is_there) => Ok(Some(TagTest::Exists(name, is_there))),
        None => Ok(None),
    }
}
