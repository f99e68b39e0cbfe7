//! The fields of a flow.
ghost use Rattle.std.specs.Prelude.{◌≡◌, OnOk};
ghost use Rattle.field_codec.specs.Reading.{GivesField, WritesValue};
ghost use Rattle.change_codec.specs.Values.{flow_head_spelling, flow_texts_spelling, flow_rest_spelling, flow_spelling};

use crate::field::Field;
use crate::values::{read_tags, write_tags};
use disk_trait::{Memory, Text};
use field_codec::{Cursor, ReadFault};
use media_rows::{FlowBody, FormatKind, MemberList, TagList};
use std::alloc::Global;

type Head = (u128, (u128, (FormatKind, bool)));

type Texts = (Option<Text>, (Option<Text>, (Option<Text>, Option<Text>)));

impl Field for FlowBody {
    ghost spelling = { flow_spelling };

    #[tactic(auto, unfolding(crate::specs::Values::flow_spelling, crate::specs::Values::flow_head_spelling, crate::specs::Values::flow_texts_spelling))]
    fn read_from(alloc: Global, input: &mut Cursor) -> Result<FlowBody, ReadFault> {
        let (id, (source, (format, read_only))) = Head::read_from(alloc, input)?;
        let (codec, (container, (label, description))) = Texts::read_from(alloc, input)?;
        let (max_bit_rate, (avg_bit_rate, (tags, (members, essence)))) = read_rest(alloc, input)?;
        Ok(FlowBody {
            id,
            source,
            format,
            read_only,
            codec,
            container,
            label,
            description,
            max_bit_rate,
            avg_bit_rate,
            tags,
            members,
            essence,
        })
    }

    #[tactic(auto, unfolding(crate::specs::Values::flow_spelling, crate::specs::Values::flow_head_spelling, crate::specs::Values::flow_texts_spelling, crate::specs::Values::flow_rest_spelling))]
    fn write_to(&self, alloc: Global, out: &mut Text) -> Result<(), Memory> {
        self.id.write_to(alloc, out)?;
        self.source.write_to(alloc, out)?;
        self.format.write_to(alloc, out)?;
        self.read_only.write_to(alloc, out)?;
        self.codec.write_to(alloc, out)?;
        self.container.write_to(alloc, out)?;
        self.label.write_to(alloc, out)?;
        self.description.write_to(alloc, out)?;
        self.max_bit_rate.write_to(alloc, out)?;
        self.avg_bit_rate.write_to(alloc, out)?;
        write_tags(alloc, &self.tags, out)?;
        self.members.write_to(alloc, out)?;
        self.essence.write_to(alloc, out)?;
        Ok(())
    }
}

type Rest = (
    Option<u64>,
    (Option<u64>, (TagList, (MemberList, Option<Text>))),
);

#[tactic(auto, unfolding(crate::specs::Values::flow_rest_spelling))]
fn read_rest(alloc: Global, input: &mut Cursor) -> Result<Rest, ReadFault>
    ensures { GivesField flow_rest_spelling input.old input.new result }
{
    let max_bit_rate = Field::read_from(alloc, input)?;
    let avg_bit_rate = Field::read_from(alloc, input)?;
    let tags = read_tags(alloc, input)?;
    let members = Field::read_from(alloc, input)?;
    let essence = Field::read_from(alloc, input)?;
    Ok((max_bit_rate, (avg_bit_rate, (tags, (members, essence)))))
}
