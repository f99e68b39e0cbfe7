//! What a case file says.
use crate::lines::{Entry, read_entries, read_number};
use crate::problem::{Fault, Problem};
use crate::word::{Failing, Word};
use disk_trait::{NumberList, Text, TextList};
use std::alloc::Global;

/// A case: what is done to one file, in order.
#[derive(Drop)]
pub struct Case {
    pub steps: Vec<CaseStep>,
}

#[derive(Drop)]
pub enum CaseStep {
    /// The file is as many zeros.
    Device(u64),
    /// The file is what the case of this name left.
    Store { line: u64, name: Text },
    /// These bytes are written into the file.
    Write(Range),
    /// The file has these bytes.
    Holds(Range),
    /// The program runs on the file.
    Run(Run),
}

/// Bytes at a place of the file.
#[derive(Drop)]
pub struct Range {
    pub line: u64,
    pub at: u64,
    pub bytes: Text,
}

/// A run of the program, how it is to end, and how it is to end where something fails in it.
#[derive(Drop)]
pub struct Run {
    pub given: Given,
    pub ends: Ends,
    pub sweeps: Vec<Sweep>,
}

/// What a run is given.
#[derive(Drop)]
pub struct Given {
    pub words: TextList,
    /// What each peer sends.
    pub peers: TextList,
    /// The most bytes that are heard at once.
    pub piece: u64,
    pub moments: NumberList,
    /// The line of the moments, where the case has them.
    pub moments_line: u64,
    /// The numbers of the calls that fail.
    pub disk_fails: NumberList,
    pub link_fails: NumberList,
    pub notes_fail: bool,
}

/// How a run ends.
#[derive(Drop)]
pub struct Ends {
    pub line: u64,
    /// What the words open. It isn't compared where it is empty.
    pub opens: Text,
    pub status: u64,
    pub notes: Text,
    pub answers: Vec<PeerAnswer>,
}

/// An answer to the peer of this number. The peers count from 0.
#[derive(Drop)]
pub struct PeerAnswer {
    pub peer: usize,
    pub bytes: Text,
}

/// A run that is made again with each call failing in turn, or that stops within each.
#[derive(Drop)]
pub struct Sweep {
    pub line: u64,
    pub failing: Failing,
    pub status: u64,
    /// What may be said in place of the next answer.
    pub instead: Text,
    /// How many bytes are said each time. An empty list isn't compared.
    pub says_bytes: NumberList,
    /// The state that is left each time. An empty list isn't compared.
    pub leaves_states: NumberList,
    /// The run that tells the states apart.
    pub probe: Given,
    pub states: Vec<State>,
}

/// A state of the store: it stands from the answer of this number on, and the probe ends so in it.
#[derive(Drop)]
pub struct State {
    pub number: u64,
    pub ends: Ends,
}

/// Reads a case file.
pub fn read_case(alloc: Global, text: &str) -> Result<Case, Problem> {
    let mut steps = Vec::new(alloc);
    for entry in &read_entries(alloc, text)? {
        add_entry(alloc, &mut steps, entry)?;
    }
    Ok(Case { steps })
}

fn add_entry(alloc: Global, steps: &mut Vec<CaseStep>, entry: &Entry<'_>) -> Result<(), Problem> {
    let step = match entry.word {
        Word::Bytes => return Ok(()),
        Word::Device => CaseStep::Device(read_number(entry.line, entry.rest)?),
        Word::Store => CaseStep::Store {
            line: entry.line,
            name: Text::from_bytes(alloc, entry.rest.as_bytes())?,
        },
        Word::Write => CaseStep::Write(range_of(alloc, entry)?),
        Word::Holds => CaseStep::Holds(range_of(alloc, entry)?),
        Word::Run => CaseStep::Run(Run::new(alloc, entry)?),
        _ => {
            return match steps.last_mut() {
                Some(CaseStep::Run(run)) => run.take(alloc, entry),
                _ => Err(Fault::Place.at(entry.line)),
            };
        }
    };
    steps.push(step)?;
    Ok(())
}

fn range_of(alloc: Global, entry: &Entry<'_>) -> Result<Range, Problem> {
    Ok(Range {
        line: entry.line,
        at: read_number(entry.line, entry.rest)?,
        bytes: entry.bytes.copy(alloc)?,
    })
}

/// Reads numbers with blanks between.
fn read_numbers(alloc: Global, entry: &Entry<'_>) -> Result<NumberList, Problem> {
    let mut numbers = NumberList::new(alloc);
    for digits in entry.rest.split_whitespace() {
        numbers.push(read_number(entry.line, digits)?)?;
    }
    Ok(numbers)
}

/// Reads words with one blank between each two.
fn read_words(alloc: Global, entry: &Entry<'_>) -> Result<TextList, Problem> {
    let mut words = TextList::new(alloc);
    for word in entry.rest.split(' ') {
        words.push(Text::from_bytes(alloc, word.as_bytes())?)?;
    }
    Ok(words)
}

impl Run {
    fn new(alloc: Global, entry: &Entry<'_>) -> Result<Run, Problem> {
        let words = read_words(alloc, entry)?;
        Ok(Run {
            given: Given::new(alloc, entry.line, words),
            ends: Ends::new(alloc, entry.line),
            sweeps: Vec::new(alloc),
        })
    }

    fn take(&mut self, alloc: Global, entry: &Entry<'_>) -> Result<(), Problem> {
        if let Word::Sweep(failing) = entry.word {
            self.sweeps.push(Sweep::new(alloc, entry.line, failing))?;
            return Ok(());
        }
        if let Some(sweep) = self.sweeps.last_mut() {
            return sweep.take(alloc, entry);
        }
        if self.given.take(alloc, entry)? {
            return Ok(());
        }
        let last = self.given.peers.items().len().saturating_sub(1);
        self.ends.take(alloc, entry, last)
    }
}

impl Given {
    fn new(alloc: Global, line: u64, words: TextList) -> Given {
        Given {
            words,
            peers: TextList::new(alloc),
            piece: 65_536,
            moments: NumberList::new(alloc),
            moments_line: line,
            disk_fails: NumberList::new(alloc),
            link_fails: NumberList::new(alloc),
            notes_fail: false,
        }
    }

    /// Takes a line of what a run is given, and says whether it was one.
    fn take(&mut self, alloc: Global, entry: &Entry<'_>) -> Result<bool, Problem> {
        match entry.word {
            Word::Word => self.words.push(entry.bytes.copy(alloc)?)?,
            Word::Peer => self.peers.push(entry.bytes.copy(alloc)?)?,
            Word::Piece => self.piece = read_number(entry.line, entry.rest)?,
            Word::Clock => {
                self.moments = read_numbers(alloc, entry)?;
                self.moments_line = entry.line;
            }
            Word::FailDisk => self.disk_fails = read_numbers(alloc, entry)?,
            Word::FailLink => self.link_fails = read_numbers(alloc, entry)?,
            Word::FailNotes => self.notes_fail = true,
            _ => return Ok(false),
        }
        Ok(true)
    }
}

impl Ends {
    fn new(alloc: Global, line: u64) -> Ends {
        Ends {
            line,
            opens: Text::new(alloc),
            status: 0,
            notes: Text::new(alloc),
            answers: Vec::new(alloc),
        }
    }

    /// Takes a line of how a run ends. An answer is that to the peer of this number.
    fn take(&mut self, alloc: Global, entry: &Entry<'_>, peer: usize) -> Result<(), Problem> {
        match entry.word {
            Word::Opens => self.opens = Text::from_bytes(alloc, entry.rest.as_bytes())?,
            Word::Status => self.status = read_number(entry.line, entry.rest)?,
            Word::Notes => self.notes = entry.bytes.copy(alloc)?,
            Word::Says => self.answers.push(PeerAnswer {
                peer,
                bytes: entry.bytes.copy(alloc)?,
            })?,
            _ => return Err(Fault::Place.at(entry.line)),
        }
        Ok(())
    }
}

impl Sweep {
    fn new(alloc: Global, line: u64, failing: Failing) -> Sweep {
        Sweep {
            line,
            failing,
            status: 0,
            instead: Text::new(alloc),
            says_bytes: NumberList::new(alloc),
            leaves_states: NumberList::new(alloc),
            probe: Given::new(alloc, line, TextList::new(alloc)),
            states: Vec::new(alloc),
        }
    }

    fn take(&mut self, alloc: Global, entry: &Entry<'_>) -> Result<(), Problem> {
        if let Word::State = entry.word {
            self.states.push(State {
                number: read_number(entry.line, entry.rest)?,
                ends: Ends::new(alloc, entry.line),
            })?;
            return Ok(());
        }
        match self.states.last_mut() {
            Some(state) => state.ends.take(alloc, entry, 0),
            None => self.take_own(alloc, entry),
        }
    }

    fn take_own(&mut self, alloc: Global, entry: &Entry<'_>) -> Result<(), Problem> {
        match entry.word {
            Word::Status => self.status = read_number(entry.line, entry.rest)?,
            Word::Instead => self.instead = entry.bytes.copy(alloc)?,
            Word::SaysBytes => self.says_bytes = read_numbers(alloc, entry)?,
            Word::LeavesStates => self.leaves_states = read_numbers(alloc, entry)?,
            Word::Probe => {
                self.probe = Given::new(alloc, entry.line, read_words(alloc, entry)?);
            }
            _ if self.probe.take(alloc, entry)? => {}
            _ => return Err(Fault::Place.at(entry.line)),
        }
        Ok(())
    }
}
