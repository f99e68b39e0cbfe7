//! Tests of what goes to webhooks and of what their peers answer. A test build proves all functions of its crate,
//! so tests stand in a crate of their own.
#![tactic(auto)]

#[cfg(test)]
mod exchanges;
#[cfg(test)]
mod requests;
#[cfg(test)]
mod verdicts;
