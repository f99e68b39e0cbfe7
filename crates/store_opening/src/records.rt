//! The changes of a half's records, applied one after another.
ghost use Rattle.std.specs.Prelude.{◌≡◌, IfOk};
ghost use Rattle.disk_trait.specs.Forms.{IsForm};
ghost use Rattle.store_states.specs.States.{Folds, StepOf};
ghost use Rattle.store_opening.specs.Opening.{IsNoStep, IsRefusedAt};
ghost use Rattle.store_opening.specs.Within.{AtDamage};

use crate::fault::OpenFault;
use change_codec::{CodecFault, decode_change};
use media_journal::Record;
use media_rows::ApplyFault;
use std::alloc::Global;
use store_core::Core;

/// The library that records of a form make of this one, in their order.
pub(crate) fn fold(
    alloc: Global,
    records: &[Record],
    form: u8,
    first: Core,
) -> Result<Core, OpenFault>
    requires form { IsForm form }
    ensures folded { IfOk result
        (λ next. Folds form records.now first.library next.library) }
    ensures refused { AtDamage result (IsRefusedAt form records.now first.library) }
{
    let mut library = first;
    for entry in records {
        library = step(alloc, entry, form, &library)?;
    }
    Ok(library)
}

/// The library that a record of a form makes of this one.
fn step(alloc: Global, entry: &Record, form: u8, library: &Core) -> Result<Core, OpenFault>
    requires form { IsForm form }
    ensures next { IfOk result
        (λ next. StepOf form entry.now.payload library.now.library next.library) }
    ensures refused { AtDamage result (λ at. IsNoStep form entry.now.payload library.now.library) }
    ensures place { AtDamage result (λ at. at ≡ entry.now.offset) }
{
    let change = match decode_change(alloc, entry.payload.bytes(), form) {
        Ok(change) => change,
        Err(CodecFault::Bad(_)) => return Err(OpenFault::Damaged(entry.offset)),
        Err(CodecFault::Memory) => return Err(OpenFault::Memory),
    };
    match library.apply(alloc, &change) {
        Ok(next) => Ok(next),
        Err(ApplyFault::Refused) => Err(OpenFault::Damaged(entry.offset)),
        Err(ApplyFault::Memory) => Err(OpenFault::Memory),
    }
}
