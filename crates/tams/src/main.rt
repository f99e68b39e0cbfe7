//! The program. It makes the file, the peer, the clock and the sink that its words name, and hands them
//! to the top call, which does the rest. What fails before that call it reports itself, and where a word asks
//! for help or the version it shows that and does nothing else. A stream that is a file which a word names is
//! written nothing.
#![tactic(auto)]

ghost use Rattle.std.specs.Prelude.{◌≡◌};
ghost use Rattle.tams_outcomes.specs.Statuses.{number_of};

use disk_trait::{Memory, MemoryDisk, NumberList, Text, TextList};
use site_edge::{
    DialSite, FileFailed, FileSite, HostClock, HostSink, MemorySite, NetSite, PeerList, Sink,
    StoreFile,
};
use std::alloc::Global;
use std::fs::File;
use std::io::{Eprint, ErrorKind, Print};
use std::net::{Ipv4Addr, Net, TcpListener, TcpStream};
use std::process::ExitCode;
use std::rt::{Clock, Env, Files};
use std::{env, str};
use tams_help::{Outlets, Streams, blame, explain, is_shown};
use tams_top::{Status, Wanted};

fn main(rt: HostRuntime) -> ExitCode {
    let streams = Streams {
        input: rt.stdin(),
        output: rt.stdout(),
        error: rt.stderr(),
    };
    let status = match words_of(&rt) {
        Ok(words) => status_within(&rt, &words, Outlets::new(&rt, streams, &words)),
        // Which command it was is not known, and the output of some has what they say to their peer alone.
        Err(Memory) => no_memory(&mut HostSink::error(streams.error)),
    };
    ExitCode::from(status)
}

/// The status of these words, also where there is no memory for them.
fn status_within<
    R: Files<File = File>
        + Clock
        + Print
        + Eprint
        + Net<Stream = TcpStream, Listener = TcpListener>
        + AllocGlobal,
>(rt: &R, words: &TextList, outlets: Outlets) -> u8 {
    match status_of(rt, words, outlets) {
        Ok(status) => status,
        Err(Memory) => no_memory(&mut outlets.notes(begins_speaking(words))),
    }
}

/// The status of the command that the words ask for.
fn status_of<
    R: Files<File = File>
        + Clock
        + Print
        + Eprint
        + Net<Stream = TcpStream, Listener = TcpListener>
        + AllocGlobal,
>(rt: &R, words: &TextList, outlets: Outlets) -> Result<u8, Memory> {
    if is_shown(rt, rt.alloc(), words, &outlets)? {
        return Ok(Status::Done.number());
    }
    let wanted = tams_top::devices(rt.alloc(), words)?;
    let mut notes = outlets.notes(speaks(&wanted, words));
    let status = status_over(rt, words, &wanted, outlets, &mut notes);
    if status == Status::BadWords.number() {
        // The words were told to be wrong, which want of memory for more doesn't change.
        let _ = explain(rt.alloc(), words, &outlets.aside);
    }
    Ok(status)
}

/// The status of a command over what its words name.
fn status_over<
    R: Files<File = File> + Clock + Net<Stream = TcpStream, Listener = TcpListener> + AllocGlobal,
>(rt: &R, words: &TextList, wanted: &Wanted, outlets: Outlets, notes: &mut HostSink) -> u8 {
    let mut clock = HostClock::new(rt);
    let (path, opened) = match wanted {
        Wanted::Nothing => return run_nowhere(rt.alloc(), words, &mut clock, notes),
        Wanted::Plain(path) | Wanted::Listen(path, _) | Wanted::Dial(path) => {
            (path, StoreFile::open(rt, path))
        }
        Wanted::Fresh(path, length) => (path, StoreFile::make(rt, path, *length)),
    };
    let mut file = match opened {
        Ok(file) => file,
        Err(failed) => {
            let path = str::from_utf8(path.bytes()).unwrap_or("");
            blame(rt.alloc(), &outlets.aside, path, failed);
            return report(notes, b"disk fault\n", Status::DiskFault);
        }
    };
    file.show_progress(outlets.aside, progress_word(words));
    match wanted {
        Wanted::Listen(_, port) => serve(rt, words, file, *port, outlets, &mut clock, notes),
        Wanted::Dial(_) => run_dialling(rt, words, file, &mut clock, notes),
        _ => run_on_file(rt.alloc(), words, file, outlets, &mut clock, notes),
    }
}

/// What progress is of: opening, where requests are served behind it.
fn progress_word(words: &TextList) -> &'static str {
    let command = match words.items().first() {
        Some(word) => word.bytes(),
        None => b"".as_slice(),
    };
    match command {
        b"format" => "format",
        b"check" => "check",
        b"migrate" => "migrate",
        b"work" => "work",
        b"deliver" => "deliver",
        b"manifest" => "manifest",
        _ => "opening",
    }
}

/// The status of a command that names no file.
fn run_nowhere<C: site_edge::Clock>(
    alloc: Global,
    words: &TextList,
    clock: &mut C,
    notes: &mut HostSink,
) -> u8 {
    let mut site = empty_site(alloc);
    tams_top::run(alloc, words, &mut site, clock, notes)
}

/// The status of a command over a file, whose one peer is the standard input and output.
fn run_on_file<C: site_edge::Clock>(
    alloc: Global,
    words: &TextList,
    file: StoreFile,
    outlets: Outlets,
    clock: &mut C,
    notes: &mut HostSink,
) -> u8 {
    let mut site = FileSite::new(file, outlets.streams.input, outlets.streams.output);
    tams_top::run(alloc, words, &mut site, clock, notes)
}

/// The status of a command that begins its connections itself.
fn run_dialling<R: Net<Stream = TcpStream> + AllocGlobal, C: site_edge::Clock>(
    rt: &R,
    words: &TextList,
    file: StoreFile,
    clock: &mut C,
    notes: &mut HostSink,
) -> u8 {
    let mut site = DialSite::new(file, rt);
    tams_top::run(rt.alloc(), words, &mut site, clock, notes)
}

/// The status of a command whose peers connect to this port.
fn serve<R: Net<Stream = TcpStream, Listener = TcpListener> + AllocGlobal, C: site_edge::Clock>(
    rt: &R,
    words: &TextList,
    file: StoreFile,
    port: u16,
    outlets: Outlets,
    clock: &mut C,
    notes: &mut HostSink,
) -> u8 {
    match TcpListener::bind(rt, (Ipv4Addr::LOCALHOST, port)) {
        Ok(listener) => {
            let mut site = NetSite::new(file, listener);
            site.announce_to(outlets.aside);
            tams_top::run(rt.alloc(), words, &mut site, clock, notes)
        }
        Err(error) => {
            let port = format_args!("port {port}");
            blame(rt.alloc(), &outlets.aside, port, FileFailed::System(error));
            report(notes, b"link fault\n", Status::LinkFault)
        }
    }
}

/// A site without bytes and peers, for what names no file.
fn empty_site(alloc: Global) -> MemorySite {
    let disk = MemoryDisk::from_bytes(alloc, Text::new(alloc), NumberList::new(alloc));
    MemorySite::new(alloc, disk, PeerList::new(alloc), 1, NumberList::new(alloc))
}

/// The arguments behind the program's name. Where one isn't UTF-8 there are no words at all, which no
/// command takes.
fn words_of<R: Env + AllocGlobal>(rt: &R) -> Result<TextList, Memory> {
    let mut words = TextList::new(rt.alloc());
    match env::args(rt) {
        Ok(arguments) => {
            for argument in arguments.skip(1) {
                words.push(Text::from_vec(argument.into_bytes()))?;
            }
            Ok(words)
        }
        Err(error) if error.kind() == ErrorKind::OutOfMemory => Err(Memory),
        Err(_) => Ok(words),
    }
}

/// Whether the words are a command whose peer is standard input and output.
fn speaks(wanted: &Wanted, words: &TextList) -> bool {
    matches!(wanted, Wanted::Plain(_)) && begins_speaking(words)
}

/// Whether the first word is that of such a command.
fn begins_speaking(words: &TextList) -> bool {
    match words.items() {
        [command, ..] => {
            let command = command.bytes();
            command == b"replay".as_slice() || command == b"manifest".as_slice()
        }
        [] => false,
    }
}

/// Reports that there is no memory.
fn no_memory(notes: &mut HostSink) -> u8 {
    report(notes, b"no memory\n", Status::NoMemory)
}

/// Puts this line to the notes. A fault of theirs changes no status.
fn report(notes: &mut HostSink, line: &[u8], status: Status) -> u8
    ensures { result ≡ number_of status }
{
    let _ = notes.put(line);
    status.number()
}
