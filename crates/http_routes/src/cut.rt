//! Texts, cut at a byte.
ghost use Rattle.std.specs.Prelude.{◌≡◌, ◌<◌, IfSome, MatchOption, None, Some, length};
ghost use Rattle.http_routes.specs.Paths.{bytes_before, bytes_behind};

/// The bytes before the first one of this value and those behind it, or all where there is none.
pub(crate) fn cut(bytes: &[u8], mark: u8) -> (&[u8], Option<&[u8]>)
    ensures front { result.0.now ≡ bytes_before mark bytes.now }
    ensures rest { MatchOption result.1 (bytes_behind mark bytes.now ≡ None)
        (λ rest. bytes_behind mark bytes.now ≡ Some rest.now) }
    ensures less { IfSome result.1 (λ rest. length rest.now < length bytes.now) }
{
    for (index, byte) in bytes.iter().enumerate() {
        if *byte == mark {
            return (&bytes[..index], Some(&bytes[index + 1..]));
        }
    }
    (bytes, None)
}
