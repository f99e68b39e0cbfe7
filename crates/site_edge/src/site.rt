//! A device together with the links to its peers.
ghost use Rattle.std.specs.Prelude.{◌≡◌, ◌≤◌, ◌<◌, ℕ, Bool, true, false, length, is_ok, IfOk};
ghost use Rattle.disk_trait.specs.Calls.{IsCounted, Unchanged};
ghost use Rattle.site_edge.specs.Links.{LinkCall, Begins, DialStep, HasDialled, Tells, SiteHeard, Said, NextPeer, Closed};

use crate::LinkFailed;
use disk_trait::Disk;

/// A disk whose calls and whose links stand in one order of moments. One connection is under way at a
/// time. `LinkFailed` comes only where the count of link faults rose in the call, or stands at the last
/// value of a `u64`.
pub trait Site: Disk {
    /// What more a site says of when its link calls fail: the value before, the value after, and
    /// whether the call succeeded.
    ghost link_fails: { Self → Self → Bool → Type 0 };

    /// Waits for the next peer: true where a connection begins, false where no more will come. A
    /// connection that was under way ends where the call succeeds.
    fn next_peer(&mut self) -> Result<bool, LinkFailed>
        ensures call { LinkCall (Begins result) (Begins result) (is_ok result)
            (Self.device self.old) (Self.device self.new) }
        ensures peers { IsCounted (is_ok result) (Self.device self.old).link.peer_faults
            (Self.device self.new).link.peer_faults }
        ensures next { NextPeer result (Self.device self.old) (Self.device self.new) }
        ensures fails { link_fails self.old self.new (is_ok result) };

    /// Hears some bytes of the peer into the front of `out`, and says how many; 0 at the end of its bytes.
    fn hear(&mut self, out: &mut [u8]) -> Result<usize, LinkFailed>
        requires under_way { (Self.device self.old).link.under_way ≡ true }
        requires not_empty { 0 < length out.old }
        ensures within { IfOk result (λ count. count ≤ length out.old) }
        ensures call { LinkCall Unchanged Unchanged (is_ok result)
            (Self.device self.old) (Self.device self.new) }
        ensures heard { SiteHeard result out.new (Self.device self.old) (Self.device self.new) }
        ensures fails { link_fails self.old self.new (is_ok result) };

    /// Tells the peer all of these bytes, or a prefix of them where it fails.
    fn say(&mut self, bytes: &[u8]) -> Result<(), LinkFailed>
        requires { (Self.device self.old).link.under_way ≡ true }
        ensures call { LinkCall (Tells false bytes.now) (Tells (is_ok result) bytes.now)
            (is_ok result) (Self.device self.old) (Self.device self.new) }
        ensures said { Said (is_ok result) bytes.now (Self.device self.old) (Self.device self.new) }
        ensures fails { link_fails self.old self.new (is_ok result) };

    /// Ends the connection that is under way.
    fn close_peer(&mut self)
        requires { (Self.device self.old).link.under_way ≡ true }
        ensures call { LinkCall Unchanged Unchanged true
            (Self.device self.old) (Self.device self.new) }
        ensures closed { Closed (Self.device self.old) (Self.device self.new) };
}

/// A site that begins connections itself.
pub trait Caller: Site {
    /// What more a site says of when its calls of `dial` fail: the port, the value before, the value after, and
    /// whether the call succeeded.
    ghost dial_fails: { ℕ → Self → Self → Bool → Type 0 };

    /// Begins a connection to this port of 127.0.0.1, to which `hear`, `say` and `close_peer` speak from then on. A
    /// call that fails leaves the connection that was under way, and marks the port for good.
    fn dial(&mut self, port: u16) -> Result<(), LinkFailed>
        ensures call { LinkCall (DialStep (is_ok result)) (DialStep (is_ok result)) (is_ok result)
            (Self.device self.old) (Self.device self.new) }
        ensures dialled { HasDialled (is_ok result) port (Self.device self.old)
            (Self.device self.new) }
        ensures fails { dial_fails port self.old self.new (is_ok result) };
}
