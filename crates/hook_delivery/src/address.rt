//! Addresses to which events go.
ghost use Rattle.std.specs.Prelude.{◌≡◌, IfOk, IsTrue, option_map};
ghost use Rattle.std.specs.Str.{is_utf8};
ghost use Rattle.url.specs.Parts.{IsValid};
ghost use Rattle.hook_delivery.specs.Posting.{HasTarget, address_in, host_name, is_own_host, is_reached, port_of};

use disk_trait::{Memory, Text};
use std::alloc::Global;
use std::str;
use url::{ParseError, Url};

/// The port of an address that names none, as that of scheme http.
const DEFAULT_PORT: u16 = 80;

/// The address that a text spells, as the URL Standard reads it, where events go to it: where it is of scheme
/// http and its host is this machine. An address past the largest size that `url` knows counts as want of
/// memory.
#[tactic(auto, using(crate::proofs::Texts::is_text))]
pub(crate) fn read_address(alloc: Global, text: &Text) -> Result<Option<Url>, Memory>
    requires { IsTrue (is_utf8 text.now) }
    ensures value { IfOk result (λ address. address ≡ address_in text.now) }
    ensures target { IfOk result (λ _. HasTarget text.now) }
{
    match str::from_utf8(text.bytes()) {
        Ok(text) => parse_address(alloc, text),
        Err(_) => Ok(None),
    }
}

fn parse_address(alloc: Global, text: &str) -> Result<Option<Url>, Memory>
    ensures value { IfOk result (λ address. address ≡ address_in text.now) }
    ensures target { IfOk result (λ _. HasTarget text.now) }
{
    match Url::parse(alloc, text) {
        Ok(url) if is_reached(&url) => Ok(Some(url)),
        Ok(_) => Ok(None),
        Err(ParseError::OutOfMemory | ParseError::Overflow) => Err(Memory),
        Err(_) => Ok(None),
    }
}

/// Whether events go to an address.
fn is_reached(url: &Url) -> bool
    ensures value { result ≡ is_reached url.now }
    ensures valid { IsValid url.now }
{
    url.scheme() == "http" && is_own_host(host_name(url))
}

/// Whether a host is this machine.
fn is_own_host(name: &str) -> bool
    ensures { result ≡ is_own_host name.now }
{
    name == "127.0.0.1" || name == "localhost"
}

/// The text of an address's host, which is empty where it has none.
pub(crate) fn host_name(url: &Url) -> &str
    ensures { result.now ≡ host_name url.now }
{
    url.host_str().unwrap_or("")
}

/// The port of an address.
pub(crate) fn port_of(url: &Url) -> u16
    ensures { result ≡ port_of url.now }
{
    url.port().unwrap_or(DEFAULT_PORT)
}
