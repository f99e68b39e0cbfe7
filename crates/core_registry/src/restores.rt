//! The registry of rows, as when a file is opened.
ghost use Rattle.std.specs.Prelude.{◌&&◌};
ghost use Rattle.media_rows.specs.Refusals.{Restores};
ghost use Rattle.media_rows.specs.Restoring.{can_restore_catalog, can_restore_outbox, can_restore_requests, catalog_of, outbox_of, requests_of};
ghost use Rattle.core_registry.specs.Restoring.{can_restore, registry_of_rows};

use crate::Registry;
use delete_work::DeleteBook;
use flow_book::FlowBook;
use media_rows::{ApplyFault, DeleteList, EventRowList, FlowList, HookList, SourceList};
use std::alloc::Global;
use webhook_outbox::Outbox;

/// The rows of a registry, each kind in any order.
#[derive(Drop)]
pub struct RegistryRows {
    pub sources: SourceList,
    pub flows: FlowList,
    pub requests: DeleteList,
    pub hooks: HookList,
    pub events: EventRowList,
}

impl Registry {
    /// The registry of these rows and of this next serial. It is refused exactly where a book tells that no good
    /// library has such rows.
    pub fn from_rows(
        alloc: Global,
        rows: &RegistryRows,
        next_serial: u64,
    ) -> Result<Registry, ApplyFault>
        ensures { Restores (can_restore rows.now) (registry_of_rows rows.now next_serial) result }
    {
        let empty = Registry::empty(alloc)?;
        match empty.with_catalog_of(alloc, rows) {
            Ok(first) => first.with_others_of(alloc, rows, next_serial),
            Err(fault) => Err(fault),
        }
    }

    /// The registry with the catalog of rows.
    fn with_catalog_of(&self, alloc: Global, rows: &RegistryRows) -> Result<Registry, ApplyFault>
        ensures { Restores (can_restore_catalog rows.now.sources rows.now.flows)
            (record self.now { catalog = catalog_of rows.now.sources rows.now.flows }) result }
    {
        match FlowBook::from_rows(alloc, &rows.sources, &rows.flows) {
            Ok(catalog) => Ok(self.with_catalog(alloc, catalog)?),
            Err(fault) => Err(fault),
        }
    }

    /// The registry with the delete requests and the outbox of rows, and with this next serial.
    fn with_others_of(
        &self,
        alloc: Global,
        rows: &RegistryRows,
        next_serial: u64,
    ) -> Result<Registry, ApplyFault>
        ensures { Restores (can_restore_requests rows.now.requests
            && can_restore_outbox rows.now.hooks rows.now.events)
            (record self.now {
              requests = requests_of rows.now.requests;
              outbox = outbox_of rows.now.hooks rows.now.events;
              next_serial = next_serial;
            }) result }
    {
        match self.with_requests_of(alloc, rows) {
            Ok(next) => next.with_outbox_of(alloc, rows, next_serial),
            Err(fault) => Err(fault),
        }
    }

    /// The registry with the delete requests of rows.
    fn with_requests_of(&self, alloc: Global, rows: &RegistryRows) -> Result<Registry, ApplyFault>
        ensures { Restores (can_restore_requests rows.now.requests)
            (record self.now { requests = requests_of rows.now.requests }) result }
    {
        match DeleteBook::from_rows(alloc, &rows.requests) {
            Ok(requests) => Ok(self.with_requests(alloc, requests)?),
            Err(fault) => Err(fault),
        }
    }

    /// The registry with the outbox of rows, and with this next serial.
    fn with_outbox_of(
        &self,
        alloc: Global,
        rows: &RegistryRows,
        next_serial: u64,
    ) -> Result<Registry, ApplyFault>
        ensures { Restores (can_restore_outbox rows.now.hooks rows.now.events)
            (record self.now {
              outbox = outbox_of rows.now.hooks rows.now.events;
              next_serial = next_serial;
            }) result }
    {
        match Outbox::from_rows(alloc, &rows.hooks, &rows.events) {
            Ok(outbox) => Ok(self.with_outbox(alloc, outbox, next_serial)?),
            Err(fault) => Err(fault),
        }
    }
}
