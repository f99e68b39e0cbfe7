//! The fields of each kind of row.
ghost use Rattle.std.specs.Prelude.{◌≡◌, OnOk};
ghost use Rattle.field_codec.specs.Reading.{GivesField, WritesValue};
ghost use Rattle.change_codec.specs.Rows.{source_row_spelling, flow_row_spelling, segment_row_spelling, status_spelling, delete_row_spelling, hook_row_spelling, event_row_spelling};

use crate::field::Field;
use crate::values::{read_tags, write_tags};
use disk_trait::{Memory, Text};
use field_codec::{BadField, Cursor, ReadFault, write_u8};
use media_rows::{DeleteRow, DeleteStatus, EventRow, FlowRow, HookRow, SegmentRow, SourceRow};
use std::alloc::Global;

impl Field for SourceRow {
    ghost spelling = { source_row_spelling };

    #[tactic(auto, unfolding(crate::specs::Rows::source_row_spelling))]
    fn read_from(alloc: Global, input: &mut Cursor) -> Result<SourceRow, ReadFault> {
        Ok(SourceRow {
            id: Field::read_from(alloc, input)?,
            format: Field::read_from(alloc, input)?,
            label: Field::read_from(alloc, input)?,
            description: Field::read_from(alloc, input)?,
            tags: read_tags(alloc, input)?,
            created: Field::read_from(alloc, input)?,
            updated: Field::read_from(alloc, input)?,
        })
    }

    #[tactic(auto, unfolding(crate::specs::Rows::source_row_spelling))]
    fn write_to(&self, alloc: Global, out: &mut Text) -> Result<(), Memory> {
        self.id.write_to(alloc, out)?;
        self.format.write_to(alloc, out)?;
        self.label.write_to(alloc, out)?;
        self.description.write_to(alloc, out)?;
        write_tags(alloc, &self.tags, out)?;
        self.created.write_to(alloc, out)?;
        self.updated.write_to(alloc, out)?;
        Ok(())
    }
}

impl Field for FlowRow {
    ghost spelling = { flow_row_spelling };

    #[tactic(auto, unfolding(crate::specs::Rows::flow_row_spelling))]
    fn read_from(alloc: Global, input: &mut Cursor) -> Result<FlowRow, ReadFault> {
        Ok(FlowRow {
            body: Field::read_from(alloc, input)?,
            created: Field::read_from(alloc, input)?,
            metadata_updated: Field::read_from(alloc, input)?,
            segments_updated: Field::read_from(alloc, input)?,
        })
    }

    #[tactic(auto, unfolding(crate::specs::Rows::flow_row_spelling))]
    fn write_to(&self, alloc: Global, out: &mut Text) -> Result<(), Memory> {
        self.body.write_to(alloc, out)?;
        self.created.write_to(alloc, out)?;
        self.metadata_updated.write_to(alloc, out)?;
        self.segments_updated.write_to(alloc, out)?;
        Ok(())
    }
}

impl Field for SegmentRow {
    ghost spelling = { segment_row_spelling };

    #[tactic(auto, unfolding(crate::specs::Rows::segment_row_spelling))]
    fn read_from(alloc: Global, input: &mut Cursor) -> Result<SegmentRow, ReadFault> {
        Ok(SegmentRow {
            flow: Field::read_from(alloc, input)?,
            serial: Field::read_from(alloc, input)?,
            segment: Field::read_from(alloc, input)?,
        })
    }

    #[tactic(auto, unfolding(crate::specs::Rows::segment_row_spelling))]
    fn write_to(&self, alloc: Global, out: &mut Text) -> Result<(), Memory> {
        self.flow.write_to(alloc, out)?;
        self.serial.write_to(alloc, out)?;
        self.segment.write_to(alloc, out)?;
        Ok(())
    }
}

impl Field for DeleteStatus {
    ghost spelling = { status_spelling };

    #[tactic(auto, unfolding(crate::specs::Rows::status_spelling))]
    fn read_from(_alloc: Global, input: &mut Cursor) -> Result<DeleteStatus, ReadFault> {
        let left = input.left();
        match input.u8_field()? {
            1 => Ok(DeleteStatus::Created),
            2 => Ok(DeleteStatus::Started),
            3 => Ok(DeleteStatus::Done),
            _ => Err(BadField { left })?,
        }
    }

    #[tactic(auto, unfolding(crate::specs::Rows::status_spelling))]
    fn write_to(&self, _alloc: Global, out: &mut Text) -> Result<(), Memory> {
        write_u8(out, self.number())?;
        Ok(())
    }
}

impl Field for DeleteRow {
    ghost spelling = { delete_row_spelling };

    #[tactic(auto, unfolding(crate::specs::Rows::delete_row_spelling))]
    fn read_from(alloc: Global, input: &mut Cursor) -> Result<DeleteRow, ReadFault> {
        Ok(DeleteRow {
            serial: Field::read_from(alloc, input)?,
            flow: Field::read_from(alloc, input)?,
            range: Field::read_from(alloc, input)?,
            delete_flow: Field::read_from(alloc, input)?,
            status: Field::read_from(alloc, input)?,
            created: Field::read_from(alloc, input)?,
            updated: Field::read_from(alloc, input)?,
        })
    }

    #[tactic(auto, unfolding(crate::specs::Rows::delete_row_spelling))]
    fn write_to(&self, alloc: Global, out: &mut Text) -> Result<(), Memory> {
        self.serial.write_to(alloc, out)?;
        self.flow.write_to(alloc, out)?;
        self.range.write_to(alloc, out)?;
        self.delete_flow.write_to(alloc, out)?;
        self.status.write_to(alloc, out)?;
        self.created.write_to(alloc, out)?;
        self.updated.write_to(alloc, out)?;
        Ok(())
    }
}

impl Field for HookRow {
    ghost spelling = { hook_row_spelling };

    #[tactic(auto, unfolding(crate::specs::Rows::hook_row_spelling))]
    fn read_from(alloc: Global, input: &mut Cursor) -> Result<HookRow, ReadFault> {
        Ok(HookRow {
            serial: Field::read_from(alloc, input)?,
            hook: Field::read_from(alloc, input)?,
            failed: Field::read_from(alloc, input)?,
        })
    }

    #[tactic(auto, unfolding(crate::specs::Rows::hook_row_spelling))]
    fn write_to(&self, alloc: Global, out: &mut Text) -> Result<(), Memory> {
        self.serial.write_to(alloc, out)?;
        self.hook.write_to(alloc, out)?;
        self.failed.write_to(alloc, out)?;
        Ok(())
    }
}

impl Field for EventRow {
    ghost spelling = { event_row_spelling };

    #[tactic(auto, unfolding(crate::specs::Rows::event_row_spelling))]
    fn read_from(alloc: Global, input: &mut Cursor) -> Result<EventRow, ReadFault> {
        Ok(EventRow {
            serial: Field::read_from(alloc, input)?,
            hook: Field::read_from(alloc, input)?,
            kind: Field::read_from(alloc, input)?,
            subject: Field::read_from(alloc, input)?,
            range: Field::read_from(alloc, input)?,
            moment: Field::read_from(alloc, input)?,
        })
    }

    #[tactic(auto, unfolding(crate::specs::Rows::event_row_spelling))]
    fn write_to(&self, alloc: Global, out: &mut Text) -> Result<(), Memory> {
        self.serial.write_to(alloc, out)?;
        self.hook.write_to(alloc, out)?;
        self.kind.write_to(alloc, out)?;
        self.subject.write_to(alloc, out)?;
        self.range.write_to(alloc, out)?;
        self.moment.write_to(alloc, out)?;
        Ok(())
    }
}
