//! One peer of a site in memory.
ghost use Rattle.std.specs.Prelude.{◌≡◌, ◌∷◌, ◌++◌, ◌<◌, ◌≤◌, ◌↔◌, [], if◌then◌else◌, length, take, IfOk, OnErr, OnOk};
ghost use Rattle.site_edge.specs.Links.{fresh};
ghost use Rattle.site_edge.specs.Lines.{heard_more, with_passed, rest_of, told_more, unheard_once, with_changed_connection};

use crate::heard_piece::HeardPiece;
use disk_trait::{Memory, Text};
use std::alloc::Global;
use std::marker::Model;

/// The bytes that a peer sends, how many of them were heard and whether to their end, what it was told, whether a
/// saying failed, and the hearings up to the first that failed, which needs no memory to be noted.
#[derive(Drop)]
pub(crate) struct Line {
    sends: Text,
    heard: usize,
    told: Text,
    ended: bool,
    unsaid: bool,
    pieces: Vec<HeardPiece>,
    unheard: Option<HeardPiece>,
}

impl Model for Line {
    ghost use Rattle.std.specs.Prelude.{◌≤◌, is_some, length, take};
    ghost use Rattle.site_edge.specs.Lines.{Talk, noted_calls};

    ghost Value = { Talk };

    ghost view = { λ l. record {
      sends = l.sends;
      connection = record {
        heard = take l.heard l.sends;
        told = l.told;
        ended = l.ended;
        unheard = is_some l.unheard;
        unsaid = l.unsaid;
        hearings = noted_calls l.pieces.items l.unheard;
      };
    } };

    ghost invariant = { λ l. l.heard ≤ length l.sends };
}

impl Line {
    /// A connection at its beginning. It takes no memory.
    pub(crate) fn new(alloc: Global, sends: Text) -> Line
        ensures { result ≡ record { sends = sends; connection = fresh } }
    {
        Line {
            sends,
            heard: 0,
            told: Text::new(alloc),
            ended: false,
            unsaid: false,
            pieces: Vec::new(alloc),
            unheard: None,
        }
    }

    pub(crate) fn heard(&self) -> &[u8]
        ensures { result.now ≡ self.now.connection.heard }
    {
        self.sends.bytes().split_at(self.heard).0
    }

    pub(crate) fn has_ended(&self) -> bool
        ensures { result ≡ self.now.connection.ended }
    {
        self.ended
    }

    pub(crate) fn told(&self) -> &[u8]
        ensures { result.now ≡ self.now.connection.told }
    {
        self.told.bytes()
    }

    /// Hears at most `piece` bytes into the front of `out`.
    pub(crate) fn hear(&mut self, out: &mut [u8], piece: usize) -> Result<usize, Memory>
        requires not_empty { 0 < length out.old }
        requires piece { 0 < piece }
        ensures within { IfOk result (λ count. count ≤ length out.old) }
        ensures piece { IfOk result (λ count. count ≤ piece) }
        ensures end { IfOk result (λ count. (count ≡ 0) ↔ (rest_of self.old ≡ [])) }
        ensures bytes { IfOk result (λ count. take count out.new ≡ take count (rest_of self.old)) }
        ensures heard { IfOk result (λ count.
            self.new ≡ with_changed_connection (heard_more count out.new) self.old) }
        ensures err { OnErr result (self.new ≡ self.old) }
    {
        let rest = self.sends.bytes().split_at(self.heard).1;
        let count = rest.len().min(piece).min(out.len());
        let heard = HeardPiece {
            heard: self.heard,
            told: self.told.bytes().len(),
            unsaid: self.unsaid,
            count,
        };
        note(&mut self.pieces, self.unheard.is_some(), heard)?;
        if count == 0 {
            self.ended = true;
            return Ok(0);
        }
        out[..count].copy_from_slice(rest.split_at(count).0);
        self.heard += count;
        Ok(count)
    }

    /// Marks the connection as one on which a hearing failed. It takes no memory.
    pub(crate) fn mark_unheard(&mut self)
        ensures { self.new ≡ with_changed_connection unheard_once self.old }
    {
        if self.unheard.is_none() {
            self.unheard = Some(HeardPiece {
                heard: self.heard,
                told: self.told.bytes().len(),
                unsaid: self.unsaid,
                count: 0,
            });
        }
    }

    /// Marks the connection as one on which a saying failed, unless it passed.
    pub(crate) fn mark(&mut self, passed: bool)
        ensures { self.new ≡ with_changed_connection (with_passed passed) self.old }
    {
        if !passed {
            self.unsaid = true;
        }
    }

    /// Tells the peer these bytes.
    pub(crate) fn tell(&mut self, bytes: &[u8]) -> Result<(), Memory>
        ensures ok { OnOk result (self.new ≡ with_changed_connection (told_more bytes.now) self.old) }
        ensures err { OnErr result (self.new ≡ self.old) }
    {
        self.told.append(bytes)
    }
}

/// Notes a hearing behind these others, unless one failed before it.
fn note(pieces: &mut Vec<HeardPiece>, failed: bool, heard: HeardPiece) -> Result<(), Memory>
    ensures ok { OnOk result (pieces.new.items
        ≡ (if failed then pieces.old.items else pieces.old.items ++ heard ∷ [])) }
    ensures err { OnErr result (pieces.new.items ≡ pieces.old.items) }
{
    if !failed {
        pieces.push(heard)?;
    }
    Ok(())
}
