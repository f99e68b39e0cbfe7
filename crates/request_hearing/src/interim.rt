//! The interim response (RFC 9110, section 10.1.1).
ghost use Rattle.std.specs.Prelude.{◌≡◌, ◌&&◌, not, [], true, false, is_ok, OnErr};
ghost use Rattle.request_hearing.specs.Hearing.{HearsAndSays};

use site_edge::{LinkFailed, Site};

/// The bytes of the interim response.
const INTERIM: &[u8] = b"HTTP/1.1 100 Continue\r\n\r\n";

/// Says the interim response where it is asked for.
pub(crate) fn say_interim<X: Site>(site: &mut X, asked: bool) -> Result<(), LinkFailed>
    requires under_way { (X.device site.old).link.under_way ≡ true }
    ensures says { HearsAndSays [] [] asked (is_ok result) (is_ok result) false
        (X.device site.old) (X.device site.new) }
    ensures asked { OnErr result (asked ≡ true) }
{
    if !asked {
        return Ok(());
    }
    site.say(INTERIM)
}

/// Whether an interim response is still to be said.
pub(crate) fn is_missing(due: bool, said: bool) -> bool
    ensures { result ≡ due && not said }
{
    due && !said
}
