//! Laws of the definitions, which no code needs to run.
ghost use Rattle.json_replies.specs.Kept.{EssenceStands};
ghost use Rattle.json_replies.specs.Order.{KeysRise};

/// A law: the keys of each object of an answer rise, byte by byte, and so no key stands twice.
pub fn keys_rise()
    ensures { KeysRise }
{}

/// A law: the essence text of a flow is printed as it was kept, byte by byte.
pub fn essence_stands()
    ensures { EssenceStands }
{}
