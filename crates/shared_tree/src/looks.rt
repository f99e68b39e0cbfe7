//! Looks at a tree: the pair at a key, and those next to it. Each node that is looked at is a step, and a
//! look takes at most as many as the tree is high.
ghost use Rattle.std.specs.Prelude.{◌≡◌, ◌+◌, ◌≤◌, filter, option_copied, option_map, int_lt};
ghost use Rattle.shared_tree.specs.Pairs.{IsRising, first, is_above, is_below, is_up_to, last, value_at};

use crate::steps::Steps;
use crate::tree::{Fork, Tree};
use std::cmp::Ordering;
use std::sync::ledger::Ledger;

/// Whether the first key is below the second one.
pub(crate) fn is_less(low: &i128, high: &i128) -> bool
    ensures { result ≡ int_lt low.now high.now }
{
    low.cmp(high) == Ordering::Less
}

impl<V: Drop> Tree<V> {
    /// The value at a key.
    pub(crate) fn find<L: Ledger>(&self, key: &i128, steps: &mut Steps<L>) -> Option<&V>
        requires rising { IsRising self.now.0 }
        ensures value { option_copied result ≡ value_at key.now self.now.0 }
        ensures cost { steps.new ≤ steps.old + self.now.1 }
    {
        let Some(fork) = &self.root else {
            return None;
        };
        let fork: &Fork<V> = fork;
        steps.tick();
        match key.cmp(&fork.key) {
            Ordering::Less => fork.left.find(key, steps),
            Ordering::Greater => fork.right.find(key, steps),
            Ordering::Equal => Some(fork.value.as_ref()),
        }
    }

    /// The first pair above a key.
    pub(crate) fn first_above<L: Ledger>(
        &self,
        key: &i128,
        steps: &mut Steps<L>,
    ) -> Option<(i128, &V)>
        requires rising { IsRising self.now.0 }
        ensures pair { option_map (λ p. (p.0, p.1.now)) result
            ≡ first (filter (is_above key.now) self.now.0) }
        ensures cost { steps.new ≤ steps.old + self.now.1 }
    {
        let Some(fork) = &self.root else {
            return None;
        };
        let fork: &Fork<V> = fork;
        steps.tick();
        if !is_less(key, &fork.key) {
            return fork.right.first_above(key, steps);
        }
        match fork.left.first_above(key, steps) {
            Some(pair) => Some(pair),
            None => Some((fork.key, fork.value.as_ref())),
        }
    }

    /// The last pair below a key.
    pub(crate) fn last_below<L: Ledger>(
        &self,
        key: &i128,
        steps: &mut Steps<L>,
    ) -> Option<(i128, &V)>
        requires rising { IsRising self.now.0 }
        ensures pair { option_map (λ p. (p.0, p.1.now)) result
            ≡ last (filter (is_below key.now) self.now.0) }
        ensures cost { steps.new ≤ steps.old + self.now.1 }
    {
        let Some(fork) = &self.root else {
            return None;
        };
        let fork: &Fork<V> = fork;
        steps.tick();
        if !is_less(&fork.key, key) {
            return fork.left.last_below(key, steps);
        }
        match fork.right.last_below(key, steps) {
            Some(pair) => Some(pair),
            None => Some((fork.key, fork.value.as_ref())),
        }
    }

    /// The last pair up to a key.
    pub(crate) fn last_up_to<L: Ledger>(
        &self,
        key: &i128,
        steps: &mut Steps<L>,
    ) -> Option<(i128, &V)>
        requires rising { IsRising self.now.0 }
        ensures pair { option_map (λ p. (p.0, p.1.now)) result
            ≡ last (filter (is_up_to key.now) self.now.0) }
        ensures cost { steps.new ≤ steps.old + self.now.1 }
    {
        let Some(fork) = &self.root else {
            return None;
        };
        let fork: &Fork<V> = fork;
        steps.tick();
        if is_less(key, &fork.key) {
            return fork.left.last_up_to(key, steps);
        }
        match fork.right.last_up_to(key, steps) {
            Some(pair) => Some(pair),
            None => Some((fork.key, fork.value.as_ref())),
        }
    }
}
