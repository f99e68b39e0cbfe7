//! The flows that refer to one object, counted.
ghost use Rattle.std.specs.Prelude.{◌≡◌, [], IfOk, length, map, nat_lt};
ghost use Rattle.media_rows.specs.Lists.{inserted, placed_all};
ghost use Rattle.media_rows.specs.Views.{id_key};
ghost use Rattle.shared_tree.specs.Pairs.{value_at, values_of};
ghost use Rattle.object_refs.specs.References.{less_one};
ghost use Rattle.object_refs.specs.Within.Counts.{recounted, times_of};

use crate::keys::{all_values, number_key, value_at, with_value, without_value};
use disk_trait::Memory;
use media_rows::IdList;
use shared_tree::Version;
use std::alloc::Global;
use std::marker::Model;

/// How often a flow refers to an object.
#[derive(Drop)]
pub(crate) struct FlowCount {
    pub(crate) flow: u128,
    pub(crate) count: u64,
}

/// The flows that refer to an object. Contracts see them rising, each as often as it does. A change makes
/// new ones and leaves these as they are.
#[derive(Drop)]
pub(crate) struct FlowCounts {
    counts: Version<FlowCount>,
    total: u64,
}

impl Model for FlowCounts {
    ghost use Rattle.std.specs.Prelude.{List, ℕ};
    ghost use Rattle.object_refs.specs.Within.Counts.{AreCounts, flows_counted};

    ghost Value = { List ℕ };

    ghost view = { λ c. flows_counted c.counts };

    ghost invariant = { λ c. AreCounts c.counts c.total };
}

impl FlowCounts {
    /// No references. It takes no memory.
    pub(crate) fn empty() -> FlowCounts
        ensures { result ≡ [] }
    {
        FlowCounts {
            counts: Version::empty(),
            total: 0,
        }
    }

    /// The same flows once more.
    pub(crate) fn share(&self) -> Result<FlowCounts, Memory>
        ensures { IfOk result (λ next. next ≡ self.now) }
    {
        Ok(FlowCounts {
            counts: self.counts.share()?,
            total: self.total,
        })
    }

    /// How many references there are.
    pub(crate) fn len(&self) -> u64
        ensures { result ≡ length self.now }
    {
        self.total
    }

    /// The flows by rising id, each once.
    pub(crate) fn distinct(&self, alloc: Global) -> Result<IdList, Memory>
        ensures { IfOk result (λ list. list ≡ placed_all nat_lt self.now) }
    {
        self.counts.keys_rise();
        let counts = all_values(alloc, &self.counts)?;
        flow_list(alloc, &counts)
    }

    /// One reference of a flow more. A count that is full is answered as want of memory.
    pub(crate) fn add(&self, alloc: Global, flow: u128) -> Result<FlowCounts, Memory>
        ensures { IfOk result (λ next. next ≡ inserted nat_lt flow self.now) }
    {
        self.counts.keys_rise();
        let times = times(&self.counts, flow);
        if times == u64::MAX || self.total == u64::MAX {
            return Err(Memory);
        }
        Ok(FlowCounts {
            counts: recounted(alloc, &self.counts, flow, times + 1)?,
            total: self.total + 1,
        })
    }

    /// One reference of a flow less, if it has one.
    pub(crate) fn remove(&self, alloc: Global, flow: u128) -> Result<FlowCounts, Memory>
        ensures { IfOk result (λ next. next ≡ less_one flow self.now) }
    {
        self.counts.keys_rise();
        let times = times(&self.counts, flow);
        if times == 0 {
            return self.share();
        }
        Ok(FlowCounts {
            counts: recounted(alloc, &self.counts, flow, times - 1)?,
            total: self.total - 1,
        })
    }
}

/// The counts with another one of a flow, where 0 is none.
fn recounted(
    alloc: Global,
    counts: &Version<FlowCount>,
    flow: u128,
    count: u64,
) -> Result<Version<FlowCount>, Memory>
    ensures { IfOk result (λ next. next ≡ recounted flow count counts.now) }
{
    let key = number_key(flow);
    if count == 0 {
        return without_value(alloc, counts, &key);
    }
    with_value(alloc, counts, &key, FlowCount { flow, count })
}

/// The flows of counts, in their order.
fn flow_list(alloc: Global, counts: &[&FlowCount]) -> Result<IdList, Memory>
    ensures { IfOk result (λ list. list ≡ map (λ c. c.flow) (values_of counts.now)) }
{
    let mut list = IdList::new(alloc);
    for counted in counts {
        list.push(counted.flow)?;
    }
    Ok(list)
}

/// How often a flow refers to the object.
fn times(counts: &Version<FlowCount>, flow: u128) -> u64
    ensures { result ≡ times_of (value_at (id_key flow) counts.now) }
{
    match value_at(counts, &number_key(flow)) {
        Some(counted) => counted.count,
        None => 0,
    }
}
