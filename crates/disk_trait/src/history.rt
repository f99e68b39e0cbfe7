//! All that was done with the bytes of a device in memory.
ghost use Rattle.std.specs.Prelude.{◌≡◌, ◌<◌, ◌≤◌, ◌+◌, ◌^◌, ◌++◌, ◌∷◌, [], length, unwrap_or, All, IfOk, IsSomeAnd, OnErr, OnOk};
ghost use Rattle.disk_trait.specs.History.{IsQuiet, kept_bytes, length_of, range_end, range_length, seen_after, seen_after_call, seen_of, stopped, stopped_within, with_call};

use crate::bytes::overwrite;
use crate::{Memory, Text};
use std::alloc::Global;
use std::marker::Model;

/// A call of a device in memory: its range, the bytes that were handed in, and whether it passed.
#[derive(Drop)]
pub(crate) enum Call {
    Read { at: u64, length: u64, passed: bool },
    Write { at: u64, bytes: Text, passed: bool },
    Sync { passed: bool },
}

/// The bytes of a device, what they were at first, and all calls since. Until the first write those
/// at first are those of now.
#[derive(Drop)]
pub(crate) struct History {
    alloc: Global,
    bytes: Vec<u8>,
    first: Option<Text>,
    calls: Vec<Call>,
}

impl Model for History {
    ghost use Rattle.std.specs.Prelude.{unwrap_or};
    ghost use Rattle.disk_trait.specs.History.{IsReplayed, Past};

    ghost Value = { Past };

    ghost view = { λ h. record { first = unwrap_or h.first h.bytes.items; calls = h.calls.items } };

    ghost invariant = { λ h. IsReplayed
        record { first = unwrap_or h.first h.bytes.items; calls = h.calls.items } h.bytes.items };
}

impl History {
    ghost use Rattle.disk_trait.specs.History.{Past};

    /// These bytes, and no call yet. It takes no memory.
    pub(crate) fn new(alloc: Global, bytes: Text) -> History
        ensures { result ≡ record { first = bytes; calls = [] } }
    {
        History {
            alloc,
            bytes: bytes.into_vec(),
            first: None,
            calls: Vec::new(alloc),
        }
    }

    /// What a read gives.
    pub(crate) fn bytes(&self) -> &[u8]
        ensures { result.now ≡ seen_of self.now }
    {
        self.bytes.as_slice()
    }

    /// The number of calls so far.
    pub(crate) fn made(&self) -> u64
        ensures made { result ≡ length self.now.calls }
        ensures small { result < 2 ^ 63 }
    {
        self.calls.len() as u64
    }

    /// Notes a call that leaves the bytes as they are.
    pub(crate) fn note(&mut self, call: Call) -> Result<(), Memory>
        requires quiet { IsQuiet call }
        requires within { range_end call ≤ length (seen_of self.old) }
        ensures ok { OnOk result (self.new ≡ with_call call self.old) }
        ensures err { OnErr result (self.new ≡ self.old) }
    {
        self.calls.push(call)?;
        Ok(())
    }

    /// Writes these bytes, or their first half where the call fails, and notes the call.
    pub(crate) fn write(&mut self, at: u64, bytes: &[u8], passes: bool) -> Result<(), Memory>
        requires { at + length bytes.now ≤ length (seen_of self.old) }
        ensures ok { OnOk result (self.new ≡ with_call (Call.Write at bytes.now passes) self.old) }
        ensures err { OnErr result (self.new ≡ self.old) }
    {
        keep_first(self.alloc, &mut self.first, &self.bytes)?;
        let handed = Text::from_bytes(self.alloc, bytes)?;
        self.calls.push(Call::Write {
            at,
            bytes: handed,
            passed: passes,
        })?;
        overwrite(&mut self.bytes, at as usize, kept(bytes, passes));
        Ok(())
    }

    /// The bytes at first.
    fn first(&self) -> &[u8]
        ensures { result.now ≡ self.now.first }
    {
        match &self.first {
            Some(first) => first.bytes(),
            None => self.bytes.as_slice(),
        }
    }

    /// The length of the range of a call, where it was made. The calls count from 1.
    pub(crate) fn range_length(&self, call: u64) -> Option<u64>
        ensures { result ≡ range_length self.now call }
    {
        if call == 0 || call > self.made() {
            return None;
        }
        Some(match &self.calls[call as usize - 1] {
            Call::Read { length, .. } => *length,
            Call::Write { bytes, .. } => bytes.bytes().len() as u64,
            Call::Sync { .. } => 0,
        })
    }

    /// The image of a stop within a call after so many bytes of its range, with all earlier calls
    /// done.
    pub(crate) fn stop_image(&self, alloc: Global, call: u64, kept: u64) -> Result<Text, Memory>
        requires { IsSomeAnd (range_length self.now call) (λ length. kept ≤ length) }
        ensures { IfOk result (λ image. image ≡ stopped self.now call kept) }
    {
        let mut image = Vec::from_slice(alloc, self.first())?;
        let before = call as usize - 1;
        make_all_again(&mut image, &self.calls[..before]);
        stop_within(&mut image, &self.calls[before], kept);
        Ok(Text::from_vec(image))
    }
}

/// Makes calls again on an image.
fn make_all_again(image: &mut Vec<u8>, calls: &[Call])
    requires { All (λ call. range_end call ≤ length image.old.items) calls.now }
    ensures { image.new.items ≡ seen_after calls.now image.old.items }
{
    for call in calls {
        make_again(image, call);
    }
}

/// Makes a call again on an image.
fn make_again(image: &mut Vec<u8>, call: &Call)
    requires { range_end call.now ≤ length image.old.items }
    ensures { image.new.items ≡ seen_after_call call.now image.old.items }
{
    if let Call::Write { at, bytes, passed } = call {
        overwrite(image, *at as usize, kept(bytes.bytes(), *passed));
    }
}

/// Makes so many bytes of a call again.
fn stop_within(image: &mut Vec<u8>, call: &Call, kept: u64)
    requires within { range_end call.now ≤ length image.old.items }
    requires kept { kept ≤ length_of call.now }
    ensures { image.new.items ≡ stopped_within kept call.now image.old.items }
{
    if let Call::Write { at, bytes, .. } = call {
        overwrite(image, *at as usize, bytes.bytes().split_at(kept as usize).0);
    }
}

/// Copies the bytes at first aside, unless that was done before.
fn keep_first(alloc: Global, first: &mut Option<Text>, bytes: &[u8]) -> Result<(), Memory>
    ensures ok { OnOk result (first.new ≡ Some (unwrap_or first.old bytes.now)) }
    ensures err { OnErr result (first.new ≡ first.old) }
{
    if first.is_none() {
        *first = Some(Text::from_bytes(alloc, bytes)?);
    }
    Ok(())
}

/// The bytes that a write keeps.
fn kept(bytes: &[u8], passes: bool) -> &[u8]
    ensures { result.now ≡ kept_bytes passes bytes.now }
{
    if passes {
        bytes
    } else {
        bytes.split_at(bytes.len() / 2).0
    }
}
