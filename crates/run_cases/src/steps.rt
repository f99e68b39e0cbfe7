//! The steps of a case.
use crate::running::{FailingCall, compare, compare_bytes, run_on};
use crate::sweep::make_sweep;
use case_files::{CaseStep, Fault, Problem, Range, Run, read_case};
use disk_trait::{Text, TextList};
use std::alloc::Global;
use tams_top::Wanted;

/// The file that a case left.
#[derive(Drop)]
pub(crate) struct CaseFile {
    pub(crate) name: Text,
    pub(crate) image: Text,
}

/// Runs a case, and answers the file that it leaves.
pub(crate) fn run_case(alloc: Global, text: &str, passed: &[CaseFile]) -> Result<Text, Problem> {
    let case = read_case(alloc, text)?;
    let mut image = Text::new(alloc);
    for step in &case.steps {
        image = make_step(alloc, image, step, passed)?;
    }
    Ok(image)
}

/// Makes a step, and answers the file that it leaves.
fn make_step(
    alloc: Global,
    image: Text,
    step: &CaseStep,
    passed: &[CaseFile],
) -> Result<Text, Problem> {
    match step {
        CaseStep::Device(length) => Ok(Text::from_vec(vec![in alloc; 0u8; *length as usize]?)),
        CaseStep::Store { line, name } => left_by(alloc, *line, name, passed),
        CaseStep::Write(range) => overwrite(alloc, &image, range),
        CaseStep::Holds(range) => {
            compare_bytes(
                alloc,
                range.line,
                "the file",
                bytes_at(&image, range)?,
                range.bytes.bytes(),
            )?;
            Ok(image)
        }
        CaseStep::Run(run) => make_run(alloc, &image, run),
    }
}

/// The file that the case of this name left.
fn left_by(alloc: Global, line: u64, name: &Text, passed: &[CaseFile]) -> Result<Text, Problem> {
    for left in passed {
        if left.name.same(name) {
            return Ok(left.image.copy(alloc)?);
        }
    }
    Err(Fault::Case.at(line))
}

/// The bytes of a range.
fn bytes_at<'a>(image: &'a Text, range: &Range) -> Result<&'a [u8], Problem> {
    let behind = image.bytes().get(range.at as usize..);
    match behind.and_then(|behind| behind.get(..range.bytes.bytes().len())) {
        Some(bytes) => Ok(bytes),
        None => Err(Fault::End.at(range.line)),
    }
}

/// Writes the bytes of a range into a file.
fn overwrite(alloc: Global, image: &Text, range: &Range) -> Result<Text, Problem> {
    let bytes = image.bytes();
    let before = bytes.get(..range.at as usize);
    let behind = bytes.get((range.at as usize).saturating_add(range.bytes.bytes().len())..);
    let (Some(before), Some(behind)) = (before, behind) else {
        return Err(Fault::End.at(range.line));
    };
    let mut written = Text::from_bytes(alloc, before)?;
    written.append(range.bytes.bytes())?;
    written.append(behind)?;
    Ok(written)
}

/// Runs the program on a file, compares how it ends, and makes its sweeps.
fn make_run(alloc: Global, image: &Text, run: &Run) -> Result<Text, Problem> {
    compare_opened(alloc, run)?;
    let ran = run_on(alloc, image.bytes(), &run.given, FailingCall::Nothing)?;
    compare(alloc, &ran, &run.given, &run.ends)?;
    for sweep in &run.sweeps {
        make_sweep(alloc, image.bytes(), run, &ran, sweep)?;
    }
    Ok(Text::from_bytes(alloc, ran.site.disk().image())?)
}

/// Compares what the words of a run open, where the case says it.
fn compare_opened(alloc: Global, run: &Run) -> Result<(), Problem> {
    let wanted = run.ends.opens.bytes();
    if wanted.is_empty() {
        return Ok(());
    }
    let opened = opened_by(alloc, &run.given.words)?;
    compare_bytes(
        alloc,
        run.ends.line,
        "what is opened",
        opened.as_bytes(),
        wanted,
    )
}

/// What words open: `nothing`, `plain` and a path, `fresh`, a length and a path, `listen`, a port and a path, or `dial` and a
/// path.
fn opened_by(alloc: Global, words: &TextList) -> Result<String, Problem> {
    Ok(match tams_top::devices(alloc, words)? {
        Wanted::Nothing => format!(in alloc; "nothing")?,
        Wanted::Plain(path) => format!(in alloc; "plain {}", path.bytes().escape_ascii())?,
        Wanted::Fresh(path, length) => {
            format!(in alloc; "fresh {length} {}", path.bytes().escape_ascii())?
        }
        Wanted::Listen(path, port) => {
            format!(in alloc; "listen {port} {}", path.bytes().escape_ascii())?
        }
        Wanted::Dial(path) => format!(in alloc; "dial {}", path.bytes().escape_ascii())?,
    })
}
