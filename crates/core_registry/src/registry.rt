//! The registry, its looks, and the posting of events.
ghost use Rattle.std.specs.Prelude.{◌≡◌, IfOk};
ghost use Rattle.media_rows.specs.Answer.{change_refusal, deleting_refusal};
ghost use Rattle.webhook_outbox.specs.Delivered.{IsBehind};
ghost use Rattle.core_registry.specs.Going.{with_requests};
ghost use Rattle.core_registry.specs.Registry.{bare_library, empty_registry, with_events_of, within};
ghost use Rattle.core_registry.specs.Within.{registry_reached};

use delete_work::DeleteBook;
use disk_trait::Memory;
use flow_book::FlowBook;
use media_rows::{HappenedList, Refusal};
use std::alloc::Global;
use std::marker::Model;
use std::rc::Rc;
use webhook_outbox::{Outbox, Posted};

/// What a library keeps beside its media. A change makes a new registry, which shares with this
/// one the books that the change leaves; moments are seconds since 1970-01-01T00:00:00Z. Where a
/// change would bring the next serial past its last value, there is no new registry.
#[derive(Drop)]
pub struct Registry {
    pub(crate) catalog: Rc<FlowBook>,
    pub(crate) requests: Rc<DeleteBook>,
    pub(crate) outbox: Rc<Outbox>,
    pub(crate) next_serial: u64,
}

impl Model for Registry {
    ghost use Rattle.core_registry.specs.Registry as kept;

    ghost Value = { kept.Registry };

    ghost view = { λ r. record {
      catalog = r.catalog.value;
      requests = r.requests.value;
      outbox = r.outbox.value;
      next_serial = r.next_serial;
    } };
}

impl Registry {
    /// The registry of a new store.
    pub fn empty(alloc: Global) -> Result<Registry, Memory>
        ensures { IfOk result (λ registry. registry ≡ empty_registry) }
    {
        Ok(Registry {
            catalog: Rc::new(alloc, FlowBook::empty())?,
            requests: Rc::new(alloc, DeleteBook::empty())?,
            outbox: Rc::new(alloc, Outbox::empty())?,
            next_serial: 1,
        })
    }

    /// The same registry once more. The error is for a count of owners that is full.
    pub fn share(&self) -> Result<Registry, Memory>
        ensures { IfOk result (λ registry. registry ≡ self.now) }
    {
        Ok(Registry {
            catalog: self.catalog.clone()?,
            requests: self.requests.clone()?,
            outbox: self.outbox.clone()?,
            next_serial: self.next_serial,
        })
    }

    /// Sources and flows.
    pub fn catalog(&self) -> &FlowBook
        ensures { result.now ≡ self.now.catalog }
    {
        &self.catalog
    }

    /// Delete requests.
    pub fn requests(&self) -> &DeleteBook
        ensures { result.now ≡ self.now.requests }
    {
        &self.requests
    }

    /// Hooks, and the events that wait for them.
    pub fn outbox(&self) -> &Outbox
        ensures { result.now ≡ self.now.outbox }
    {
        &self.outbox
    }

    /// The serial that the next new row gets.
    pub fn next_serial(&self) -> u64
        ensures { result ≡ self.now.next_serial }
    {
        self.next_serial
    }

    /// Why a flow isn't to change: an unfinished request deletes it, it isn't kept, or it is
    /// read-only.
    pub fn change_refusal(&self, flow: u128) -> Option<Refusal>
        ensures { result ≡ change_refusal (bare_library self.now) flow }
    {
        if self.requests.deleting(flow) {
            return Some(Refusal::Deleting);
        }
        match self.catalog.flow(flow) {
            None => Some(Refusal::NoFlow),
            Some(row) => {
                if row.body.read_only {
                    Some(Refusal::ReadOnly)
                } else {
                    None
                }
            }
        }
    }

    /// `Deleting`, where an unfinished request deletes the flow.
    pub(crate) fn deleting_refusal(&self, flow: u128) -> Option<Refusal>
        ensures { result ≡ deleting_refusal (bare_library self.now) flow }
    {
        if self.requests.deleting(flow) {
            Some(Refusal::Deleting)
        } else {
            None
        }
    }

    /// The registry with these requests.
    pub fn with_requests(&self, alloc: Global, requests: DeleteBook) -> Result<Registry, Memory>
        ensures { IfOk result (λ next. next ≡ with_requests requests self.now) }
    {
        Ok(Registry {
            catalog: self.catalog.clone()?,
            requests: Rc::new(alloc, requests)?,
            outbox: self.outbox.clone()?,
            next_serial: self.next_serial,
        })
    }

    /// The registry with this catalog.
    pub(crate) fn with_catalog(&self, alloc: Global, catalog: FlowBook) -> Result<Registry, Memory>
        ensures { IfOk result (λ next. next ≡ record self.now { catalog = catalog }) }
    {
        Ok(Registry {
            catalog: Rc::new(alloc, catalog)?,
            requests: self.requests.clone()?,
            outbox: self.outbox.clone()?,
            next_serial: self.next_serial,
        })
    }

    /// The registry with this outbox and this next serial.
    pub(crate) fn with_outbox(
        &self,
        alloc: Global,
        outbox: Outbox,
        next_serial: u64,
    ) -> Result<Registry, Memory>
        ensures { IfOk result
            (λ next. next ≡ record self.now { outbox = outbox; next_serial = next_serial }) }
    {
        Ok(Registry {
            catalog: self.catalog.clone()?,
            requests: self.requests.clone()?,
            outbox: Rc::new(alloc, outbox)?,
            next_serial,
        })
    }

    /// The registry with the events of what happened at a moment, which take the next serials.
    #[tactic(auto, using(crate::proofs::Posting::posting_reaches))]
    pub(crate) fn post(
        &self,
        alloc: Global,
        happened: &HappenedList,
        now: u64,
    ) -> Result<Option<Registry>, Memory>
        requires behind { IsBehind self.now.next_serial self.now.outbox.events }
        ensures { IfOk result
            (λ next. next ≡ within (with_events_of happened.now now self.now)) }
    {
        let posted = self
            .outbox
            .post_events(alloc, happened, self.next_serial, now)?;
        self.reach(alloc, posted)
    }

    /// The registry with another catalog, and with the events of what happened.
    pub(crate) fn told(
        &self,
        alloc: Global,
        catalog: FlowBook,
        happened: &HappenedList,
        now: u64,
    ) -> Result<Option<Registry>, Memory>
        requires behind { IsBehind self.now.next_serial self.now.outbox.events }
        ensures { IfOk result (λ next. next
            ≡ within (with_events_of happened.now now (record self.now { catalog = catalog }))) }
    {
        self.with_catalog(alloc, catalog)?
            .post(alloc, happened, now)
    }

    /// The registry to which posting has come.
    fn reach(&self, alloc: Global, posted: Posted) -> Result<Option<Registry>, Memory>
        ensures { IfOk result (λ next. next ≡ registry_reached self.now posted) }
    {
        let Posted { outbox, next } = posted;
        match next {
            Some(serial) => Ok(Some(self.with_outbox(alloc, outbox, serial)?)),
            None => Ok(None),
        }
    }
}
