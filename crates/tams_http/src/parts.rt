//! Parts of sources and flows.
ghost use Rattle.std.specs.Prelude.{IfOk, IsTrue};
ghost use Rattle.json_bodies.specs.Answers.{Answers};
ghost use Rattle.json_bodies.specs.Part.{is_name_text, is_part_text};
ghost use Rattle.tams_http.specs.Parts as spec;
ghost use Rattle.tams_http.specs.Parts.{cleared_part, set_part};

use crate::ask::AskFault;
use crate::named::tag_at;
use disk_trait::Listed;
use http_routes::{FlowPart, SourcePart};
use media_rows::{Part, PartName, Refusal};
use std::alloc::Global;
use tams_json::read_part;

/// The part of a source that a path names.
pub(crate) fn source_part_name(
    alloc: Global,
    part: SourcePart,
    path: &[u8],
) -> Result<PartName, AskFault>
    ensures answer { Answers (spec.source_part_name part path.now) result }
    ensures good { IfOk result (λ name. IsTrue (is_name_text name)) }
{
    match part {
        SourcePart::Tags => Ok(PartName::Tags),
        SourcePart::Tag => Ok(PartName::Tag(tag_at(alloc, path)?)),
        SourcePart::Label => Ok(PartName::Label),
        SourcePart::Description => Ok(PartName::Description),
    }
}

/// The part of a flow that a path names.
pub(crate) fn flow_part_name(
    alloc: Global,
    part: FlowPart,
    path: &[u8],
) -> Result<PartName, AskFault>
    ensures answer { Answers (spec.flow_part_name part path.now) result }
    ensures good { IfOk result (λ name. IsTrue (is_name_text name)) }
{
    match part {
        FlowPart::Tags => Ok(PartName::Tags),
        FlowPart::Tag => Ok(PartName::Tag(tag_at(alloc, path)?)),
        FlowPart::Label => Ok(PartName::Label),
        FlowPart::Description => Ok(PartName::Description),
        FlowPart::ReadOnly => Ok(PartName::ReadOnly),
        FlowPart::Collection => Ok(PartName::Collection),
        FlowPart::MaxBitRate => Ok(PartName::MaxBitRate),
        FlowPart::AvgBitRate => Ok(PartName::AvgBitRate),
    }
}

/// The part as a body sets it.
pub(crate) fn set_part(alloc: Global, name: PartName, body: &[u8]) -> Result<Part, AskFault>
    ensures answer { Answers (set_part name body.now) result }
    ensures good { IsTrue (is_name_text name) → IfOk result (λ part. IsTrue (is_part_text part)) }
{
    match name {
        PartName::Tags => Err(AskFault::Refused(Refusal::NoMethod)),
        name => read_part(alloc, body, name),
    }
}

/// The part as it is cleared.
pub(crate) fn cleared_part(alloc: Global, name: PartName) -> Result<Part, AskFault>
    ensures answer { Answers (cleared_part name) result }
    ensures good { IsTrue (is_name_text name) → IfOk result (λ part. IsTrue (is_part_text part)) }
{
    match name {
        PartName::Tag(name) => Ok(Part::Tag(name, None)),
        PartName::Label => Ok(Part::Label(None)),
        PartName::Description => Ok(Part::Description(None)),
        PartName::Collection => Ok(Part::Collection(Listed::new(alloc))),
        PartName::MaxBitRate => Ok(Part::MaxBitRate(None)),
        PartName::AvgBitRate => Ok(Part::AvgBitRate(None)),
        PartName::Tags | PartName::ReadOnly => Err(AskFault::Refused(Refusal::NoMethod)),
    }
}
