//! Sweeps: a run made again with each call failing in turn, or stopped within each.
use crate::running::{FailingCall, Ran, compare, run_on};
use case_files::{Failing, Problem, Run, Sweep};
use disk_trait::{NumberList, Text, same_bytes};
use std::alloc::{AllocError, Global};

/// The most calls of a link that a sweep fails.
const MOST_LINK_CALLS: u64 = 1_000_000;

/// The end of one run of a sweep: the call that failed or within which it stopped, the bytes of it that
/// were done, what had been said, and the file that is left.
#[derive(Drop)]
struct Point {
    call: u64,
    kept: u64,
    said: Said,
    image: Text,
}

/// How many answers had begun, and how many bytes were said in all.
#[derive(Clone, Copy)]
struct Said {
    begun: u64,
    length: u64,
}

/// A sweep under way, and how many points of it were judged.
#[derive(Drop)]
struct Sweeper<'a> {
    alloc: Global,
    sweep: &'a Sweep,
    run: &'a Run,
    judged: usize,
}

/// Makes a sweep of a run, which began with this file and ended so where nothing failed.
pub(crate) fn make_sweep(
    alloc: Global,
    image: &[u8],
    run: &Run,
    ran: &Ran,
    sweep: &Sweep,
) -> Result<(), Problem> {
    let mut sweeper = Sweeper {
        alloc,
        sweep,
        run,
        judged: 0,
    };
    match sweep.failing {
        Failing::Disk => sweeper.fail_disk(image, ran)?,
        Failing::Link => sweeper.fail_link(image, ran)?,
        Failing::Stop => sweeper.stop(image, ran)?,
    }
    sweeper.check_count(&sweep.says_bytes)?;
    sweeper.check_count(&sweep.leaves_states)
}

impl Sweeper<'_> {
    fn fail_disk(&mut self, image: &[u8], ran: &Ran) -> Result<(), Problem> {
        for call in 1..=ran.site.disk().calls() {
            let failing = FailingCall::Disk(call);
            let failed = run_on(self.alloc, image, &self.run.given, failing)?;
            self.judge_failed(call, &failed)?;
        }
        Ok(())
    }

    /// The first call that isn't made ends it: the run then ends as it did where nothing failed.
    fn fail_link(&mut self, image: &[u8], ran: &Ran) -> Result<(), Problem> {
        for call in 1..=MOST_LINK_CALLS {
            let failing = FailingCall::Link(call);
            let failed = run_on(self.alloc, image, &self.run.given, failing)?;
            if failed.status == ran.status {
                return Ok(());
            }
            self.judge_failed(call, &failed)?;
        }
        Ok(())
    }

    /// What had been said before a stop is what is said where the call fails.
    fn stop(&mut self, image: &[u8], ran: &Ran) -> Result<(), Problem> {
        for call in 1..=ran.site.disk().calls() {
            let failing = FailingCall::Disk(call);
            let failed = run_on(self.alloc, image, &self.run.given, failing)?;
            let said = self.said_by(call, &failed)?;
            self.stop_within(ran, call, said)?;
        }
        Ok(())
    }

    /// Judges a run in which a call failed.
    fn judge_failed(&mut self, call: u64, failed: &Ran) -> Result<(), Problem> {
        let said = self.said_by(call, failed)?;
        let image = Text::from_bytes(self.alloc, failed.site.disk().image())?;
        let point = Point {
            call,
            kept: 0,
            said,
            image,
        };
        if u64::from(failed.status) != self.sweep.status {
            return Err(self.differs(&point, "the status is", u64::from(failed.status)));
        }
        self.judge(&point)
    }

    /// Judges a stop within a call that changes the file, after 0, 1, half and all of its bytes.
    fn stop_within(&mut self, ran: &Ran, call: u64, said: Said) -> Result<(), Problem> {
        let disk = ran.site.disk();
        let Some(length) = disk.range_length(call) else {
            return Ok(());
        };
        let first = disk.stop_image(self.alloc, call, 0)?;
        let last = disk.stop_image(self.alloc, call, length)?;
        if first.same(&last) {
            return Ok(());
        }
        let mut before = None;
        for kept in [0, 1, length / 2, length] {
            if kept <= length && before.is_none_or(|before| before < kept) {
                let image = disk.stop_image(self.alloc, call, kept)?;
                before = Some(kept);
                self.judge(&Point {
                    call,
                    kept,
                    said,
                    image,
                })?;
            }
        }
        Ok(())
    }

    /// What was said: whole answers of the run, then nothing, a part of the next one, or what may be said
    /// in place of it.
    fn said_by(&self, call: u64, failed: &Ran) -> Result<Said, Problem> {
        let mut all = Text::new(self.alloc);
        for told in failed.told.items() {
            all.append(told.bytes())?;
        }
        let length = all.bytes().len() as u64;
        match self.begun(all.bytes()) {
            Some(begun) => Ok(Said { begun, length }),
            None => Err(self.differs(
                &Point {
                    call,
                    kept: 0,
                    said: Said { begun: 0, length },
                    image: all,
                },
                "something else is said, bytes",
                length,
            )),
        }
    }

    /// How many answers had begun, where this is what may be said. Before a stop only whole answers count.
    fn begun(&self, said: &[u8]) -> Option<u64> {
        let (whole, rest) = self.whole_answers(said);
        let is_whole = rest.is_empty() || same_bytes(rest, self.sweep.instead.bytes());
        if is_whole || matches!(self.sweep.failing, Failing::Stop) {
            return Some(whole as u64);
        }
        let next = self.run.ends.answers.get(whole)?;
        next.bytes
            .bytes()
            .starts_with(rest)
            .then_some((whole as u64).saturating_add(1))
    }

    /// How many whole answers were said, and what was said behind them.
    fn whole_answers<'s>(&self, said: &'s [u8]) -> (usize, &'s [u8]) {
        let mut whole = 0usize;
        let mut rest = said;
        for answer in &self.run.ends.answers {
            let Some(behind) = rest.strip_prefix(answer.bytes.bytes()) else {
                break;
            };
            whole = whole.saturating_add(1);
            rest = behind;
        }
        (whole, rest)
    }

    /// Judges a point: the probe ends there as in one of the states, and this state is none before that of
    /// the last answer that had begun, and none past that of the next one.
    fn judge(&mut self, point: &Point) -> Result<(), Problem> {
        let state = self.state_of(point)?;
        if !self.is_allowed(state, point.said.begun) {
            return Err(self.differs(point, "at a wrong time it leaves state", state));
        }
        if !is_listed(&self.sweep.leaves_states, self.judged, state) {
            return Err(self.differs(point, "it leaves state", state));
        }
        if !is_listed(&self.sweep.says_bytes, self.judged, point.said.length) {
            return Err(self.differs(point, "bytes are said", point.said.length));
        }
        self.judged = self.judged.saturating_add(1);
        Ok(())
    }

    fn is_allowed(&self, state: u64, begun: u64) -> bool {
        for listed in &self.sweep.states {
            if state < listed.number && listed.number <= begun {
                return false;
            }
        }
        state <= begun.saturating_add(1)
    }

    /// The state in which the probe ends as it does over this file.
    fn state_of(&self, point: &Point) -> Result<u64, Problem> {
        let probe = &self.sweep.probe;
        let probed = run_on(self.alloc, point.image.bytes(), probe, FailingCall::Nothing)?;
        for state in &self.sweep.states {
            match compare(self.alloc, &probed, probe, &state.ends) {
                Ok(()) => return Ok(state.number),
                Err(Problem::Differs { .. }) => {}
                Err(other) => return Err(other),
            }
        }
        Err(self.differs(
            point,
            "no listed state is left, status",
            u64::from(probed.status),
        ))
    }

    /// A list of the case has a number for each point.
    fn check_count(&self, list: &NumberList) -> Result<(), Problem> {
        let listed = list.numbers().len();
        if listed == 0 || listed == self.judged {
            return Ok(());
        }
        let judged = self.judged;
        let what = format!(in self.alloc; "the sweep has {judged} points, and a list {listed}")?;
        Err(Problem::Differs {
            line: self.sweep.line,
            what,
        })
    }

    fn differs(&self, point: &Point, what: &str, number: u64) -> Problem {
        let Point { call, kept, .. } = point;
        match format!(in self.alloc; "call {call}, {kept} bytes of it: {what} {number}") {
            Ok(what) => Problem::Differs {
                line: self.sweep.line,
                what,
            },
            Err(AllocError) => Problem::Memory,
        }
    }
}

/// Whether a list that isn't empty has this number at this place, if any.
fn is_listed(list: &NumberList, place: usize, number: u64) -> bool {
    match list.numbers().get(place) {
        Some(listed) => *listed == number,
        None => true,
    }
}
