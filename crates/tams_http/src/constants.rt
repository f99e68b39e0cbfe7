//! The two responses that no reply has. Each ends its connection and takes no memory.
ghost use Rattle.std.specs.Prelude.{◌≡◌};
ghost use Rattle.tams_http.specs.Constants.{failure};

/// The response where there was no memory (RFC 9110, section 15.6.1).
pub fn server_error() -> &'static str
    ensures { result.now ≡ failure 500 }
{
    "HTTP/1.1 500 Internal Server Error\r\nContent-Length: 0\r\nConnection: close\r\n\r\n"
}

/// The response where the disk failed (RFC 9110, section 15.6.4).
pub fn unavailable() -> &'static str
    ensures { result.now ≡ failure 503 }
{
    "HTTP/1.1 503 Service Unavailable\r\nContent-Length: 0\r\nConnection: close\r\n\r\n"
}
