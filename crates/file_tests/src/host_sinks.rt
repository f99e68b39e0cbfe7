//! Standard output and standard error as sinks.
use site_edge::{HostSink, Sink, SinkFailed};

/// Puts a line to any sink.
fn note<N: Sink>(sink: &mut N) -> Result<(), SinkFailed> {
    sink.put(b"noted\n")
}

#[test]
fn a_closed_stream_is_a_fault(rt: HostRuntime) {
    let mut output = HostSink::output(rt.stdout());
    assert_eq!(rt; note(&mut output), Ok(()));
    let mut error = HostSink::error(rt.stderr());
    assert_eq!(rt; note(&mut error), Ok(()));
    libc::close(libc::STDERR_FILENO);
    let after = note(&mut error);
    assert_eq!(rt; after, Err(SinkFailed));
}
