//! The one order of texts: by bytes.
ghost use Rattle.std.specs.Prelude.{◌≡◌};
ghost use Rattle.std.specs.Cmp.{IsTotalOrder};
ghost use Rattle.media_rows.specs.Lists.{text_before, text_cmp};

use disk_trait::Text;

/// Whether a text stands before another, byte by byte; a text stands before each longer one that
/// begins with it.
pub fn text_before(left: &Text, right: &Text) -> bool
    ensures { result ≡ text_before left.now right.now }
{
    left.bytes().cmp(right.bytes()).is_lt()
}

/// A law: the order of texts is a total order.
pub fn texts_have_an_order()
    ensures { IsTotalOrder text_cmp }
{}
