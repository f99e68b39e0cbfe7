//! Walks through a tree, which append values in order as far as there is room.
ghost use Rattle.std.specs.Prelude.{◌≡◌, ◌+◌, ◌*◌, ◌≤◌, ◌<◌, ◌++◌, ◌∷◌, [], filter, reverse, vec_capacity, vec_len};
ghost use Rattle.shared_tree.specs.Pairs.{IsRising, is_from, is_up_to};
ghost use Rattle.shared_tree.specs.Within.Walks.{Costs, Walked};
ghost use Rattle.shared_tree.specs.Pairs.{values_of};

use crate::looks::is_less;
use crate::steps::Steps;
use crate::tree::{Fork, Tree};
use std::sync::ledger::Ledger;

impl<V: Drop> Tree<V> {
    /// Appends all values by rising key, and answers the room that is left.
    fn append_all<'a, L: Ledger>(
        &'a self,
        room: usize,
        out: &mut Vec<&'a V>,
        steps: &mut Steps<L>,
    ) -> usize
        requires { vec_len out.old + room ≤ vec_capacity out.old }
        ensures walked { Walked (values_of out.old.items) (values_of out.new.items) room result
            self.now.0 }
        ensures length { vec_len out.new + result ≡ vec_len out.old + room }
        ensures capacity { vec_capacity out.old ≤ vec_capacity out.new }
        ensures cost { Costs steps.old steps.new room result self.now.1 0 }
    {
        let Some(fork) = &self.root else {
            return room;
        };
        let fork: &Fork<V> = fork;
        if room == 0 {
            return 0;
        }
        steps.tick();
        let behind = fork.left.append_all(room, out, steps);
        if behind == 0 {
            return 0;
        }
        append(out, fork.value.as_ref());
        fork.right.append_all(behind - 1, out, steps)
    }

    /// Appends the values from a key on by rising key, and answers the room that is left.
    pub(crate) fn append_from<'a, L: Ledger>(
        &'a self,
        key: &i128,
        room: usize,
        out: &mut Vec<&'a V>,
        steps: &mut Steps<L>,
    ) -> usize
        requires rising { IsRising self.now.0 }
        requires room { vec_len out.old + room ≤ vec_capacity out.old }
        ensures walked { Walked (values_of out.old.items) (values_of out.new.items) room result
            (filter (is_from key.now) self.now.0) }
        ensures length { vec_len out.new + result ≡ vec_len out.old + room }
        ensures capacity { vec_capacity out.old ≤ vec_capacity out.new }
        ensures cost { Costs steps.old steps.new room result (2 * self.now.1) self.now.1 }
    {
        let Some(fork) = &self.root else {
            return room;
        };
        let fork: &Fork<V> = fork;
        if room == 0 {
            return 0;
        }
        steps.tick();
        if is_less(&fork.key, key) {
            return fork.right.append_from(key, room, out, steps);
        }
        let behind = fork.left.append_from(key, room, out, steps);
        if behind == 0 {
            return 0;
        }
        append(out, fork.value.as_ref());
        fork.right.append_all(behind - 1, out, steps)
    }

    /// Appends all values by falling key, and answers the room that is left.
    fn append_all_back<'a, L: Ledger>(
        &'a self,
        room: usize,
        out: &mut Vec<&'a V>,
        steps: &mut Steps<L>,
    ) -> usize
        requires { vec_len out.old + room ≤ vec_capacity out.old }
        ensures walked { Walked (values_of out.old.items) (values_of out.new.items) room result
            (reverse self.now.0) }
        ensures length { vec_len out.new + result ≡ vec_len out.old + room }
        ensures capacity { vec_capacity out.old ≤ vec_capacity out.new }
        ensures cost { Costs steps.old steps.new room result self.now.1 0 }
    {
        let Some(fork) = &self.root else {
            return room;
        };
        let fork: &Fork<V> = fork;
        if room == 0 {
            return 0;
        }
        steps.tick();
        let behind = fork.right.append_all_back(room, out, steps);
        if behind == 0 {
            return 0;
        }
        append(out, fork.value.as_ref());
        fork.left.append_all_back(behind - 1, out, steps)
    }

    /// Appends the values up to a key by falling key, and answers the room that is left.
    pub(crate) fn append_up_to<'a, L: Ledger>(
        &'a self,
        key: &i128,
        room: usize,
        out: &mut Vec<&'a V>,
        steps: &mut Steps<L>,
    ) -> usize
        requires rising { IsRising self.now.0 }
        requires room { vec_len out.old + room ≤ vec_capacity out.old }
        ensures walked { Walked (values_of out.old.items) (values_of out.new.items) room result
            (reverse (filter (is_up_to key.now) self.now.0)) }
        ensures length { vec_len out.new + result ≡ vec_len out.old + room }
        ensures capacity { vec_capacity out.old ≤ vec_capacity out.new }
        ensures cost { Costs steps.old steps.new room result (2 * self.now.1) self.now.1 }
    {
        let Some(fork) = &self.root else {
            return room;
        };
        let fork: &Fork<V> = fork;
        if room == 0 {
            return 0;
        }
        steps.tick();
        if is_less(key, &fork.key) {
            return fork.left.append_up_to(key, room, out, steps);
        }
        let behind = fork.right.append_up_to(key, room, out, steps);
        if behind == 0 {
            return 0;
        }
        append(out, fork.value.as_ref());
        fork.left.append_all_back(behind - 1, out, steps)
    }
}

/// Appends a value for which there is room.
fn append<'a, V>(out: &mut Vec<&'a V>, value: &'a V)
    requires { vec_len out.old < vec_capacity out.old }
    ensures values { values_of out.new.items ≡ values_of out.old.items ++ value.now ∷ [] }
    ensures length { vec_len out.new ≡ vec_len out.old + 1 }
    ensures capacity { vec_capacity out.old ≤ vec_capacity out.new }
{
    let Ok(()) = out.push(value) else {
        unreachable!()
    };
}
