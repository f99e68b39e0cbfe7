//! A version of a sorted list of pairs, and its public calls.
ghost use Rattle.std.specs.Prelude.{◌≡◌, ◌+◌, ◌-◌, ◌*◌, ◌^◌, ◌≤◌, ◌<◌, ◌++◌, [], false, IfOk, ◌↔◌, filter, is_some, length, min, option_copied, option_map, reverse, take, vec_capacity, vec_len};
ghost use Rattle.shared_tree.specs.Pairs.{AreKeys, IsRising, digits, first, is_above, is_below, is_from, is_up_to, last, value_at, values, with_pair, without_key};
ghost use Rattle.shared_tree.specs.Pairs.{values_of};

use crate::steps::Steps;
use crate::tree::Tree;
use disk_trait::Memory;
use std::alloc::Global;
use std::marker::{Brand, Model};
use std::rc::Rc;
use std::sync::ledger::{Blank, Ledger};

/// A sorted list of pairs of a key and a value, each key once. A change makes a new version, which shares
/// with the old one all but the nodes on the way to the key. A look at n pairs takes at most
/// 2·digits(n) steps, where digits(n) is the number of binary digits of n.
#[derive(Drop)]
pub struct Version<V> {
    tree: Tree<V>,
    /// How many pairs there are beside the first one: with it a full version's count fits.
    more: u128,
}

impl<V> Model for Version<V> {
    ghost use Rattle.std.specs.Prelude.{ℤ, List};

    ghost Value = { List (ℤ × V) };

    ghost use Rattle.shared_tree.specs.Within.Versions.{IsVersion};

    ghost view = { λ v. v.tree.0 };

    ghost invariant = { IsVersion };
}

impl<V: Drop> Version<V> {
    /// A version without pairs. It takes no memory.
    pub fn empty() -> Version<V>
        ensures { result ≡ [] }
    {
        Version {
            tree: Tree::empty(),
            more: 0,
        }
    }

    /// The same version once more. The error is for a count of owners that is full.
    pub fn share(&self) -> Result<Version<V>, Memory>
        ensures { IfOk result (λ version. version ≡ self.now) }
    {
        Ok(Version {
            tree: self.tree.share()?,
            more: self.more,
        })
    }

    /// The number of pairs, or the last value of a `u64` where there are more.
    pub fn len(&self) -> u64
        ensures { result ≡ min (length self.now) (2 ^ 64 - 1) }
    {
        if self.tree.is_empty() {
            return 0;
        }
        u64::try_from(self.more)
            .unwrap_or(u64::MAX)
            .saturating_add(1)
    }

    /// Tells what holds of each version: its keys rise.
    pub fn keys_rise(&self)
        ensures { IsRising self.now }
    {
        // Where a field is read, the invariant is known.
        let _more = self.more;
    }

    /// Tells what holds of each version: its keys are each an `i128`.
    pub fn keys_fit(&self)
        ensures { AreKeys self.now }
    {
        // Where a field is read, the invariant is known.
        let _more = self.more;
    }

    /// The value at a key.
    pub fn get<L: Ledger>(&self, key: i128, steps: &mut Steps<L>) -> Option<&V>
        ensures value { option_copied result ≡ value_at key self.now }
        ensures cost { steps.new ≤ steps.old + 2 * digits (length self.now) }
    {
        self.tree.tell_low();
        self.tree.find(&key, steps)
    }

    /// The last pair whose key is at most this one.
    pub fn at_or_before<L: Ledger>(&self, key: i128, steps: &mut Steps<L>) -> Option<(i128, &V)>
        ensures pair { option_map (λ p. (p.0, p.1.now)) result
            ≡ last (filter (is_up_to key) self.now) }
        ensures cost { steps.new ≤ steps.old + 2 * digits (length self.now) }
    {
        self.tree.tell_low();
        self.tree.last_up_to(&key, steps)
    }

    /// The first pair whose key is above this one.
    pub fn after<L: Ledger>(&self, key: i128, steps: &mut Steps<L>) -> Option<(i128, &V)>
        ensures pair { option_map (λ p. (p.0, p.1.now)) result
            ≡ first (filter (is_above key) self.now) }
        ensures cost { steps.new ≤ steps.old + 2 * digits (length self.now) }
    {
        self.tree.tell_low();
        self.tree.first_above(&key, steps)
    }

    /// The last pair whose key is below this one.
    pub fn before<L: Ledger>(&self, key: i128, steps: &mut Steps<L>) -> Option<(i128, &V)>
        ensures pair { option_map (λ p. (p.0, p.1.now)) result
            ≡ last (filter (is_below key) self.now) }
        ensures cost { steps.new ≤ steps.old + 2 * digits (length self.now) }
    {
        self.tree.tell_low();
        self.tree.last_below(&key, steps)
    }

    /// Appends the first values from this key on by rising key, at most `limit`. `out` must have room for them.
    pub fn walk_from<'a, L: Ledger>(
        &'a self,
        key: i128,
        limit: usize,
        out: &mut Vec<&'a V>,
        steps: &mut Steps<L>,
    )
        requires { vec_len out.old + limit ≤ vec_capacity out.old }
        ensures values { values_of out.new.items
            ≡ values_of out.old.items ++ take limit (values (filter (is_from key) self.now)) }
        ensures length { vec_len out.new ≤ vec_len out.old + limit }
        ensures capacity { vec_capacity out.old ≤ vec_capacity out.new }
        ensures cost { steps.new ≤ steps.old + 4 * digits (length self.now) + limit }
    {
        self.tree.tell_low();
        let _room = self.tree.append_from(&key, limit, out, steps);
    }

    /// Appends the first values from this key back by falling key, at most `limit`. `out` must have room for
    /// them.
    pub fn walk_back_from<'a, L: Ledger>(
        &'a self,
        key: i128,
        limit: usize,
        out: &mut Vec<&'a V>,
        steps: &mut Steps<L>,
    )
        requires { vec_len out.old + limit ≤ vec_capacity out.old }
        ensures values { values_of out.new.items
            ≡ values_of out.old.items
            ++ take limit (values (reverse (filter (is_up_to key) self.now))) }
        ensures length { vec_len out.new ≤ vec_len out.old + limit }
        ensures capacity { vec_capacity out.old ≤ vec_capacity out.new }
        ensures cost { steps.new ≤ steps.old + 4 * digits (length self.now) + limit }
    {
        self.tree.tell_low();
        let _room = self.tree.append_up_to(&key, limit, out, steps);
    }

    /// A version with this pair at its place, instead of the one that has its key, where there is one.
    pub fn with(&self, alloc: Global, key: i128, value: Rc<V>) -> Result<Version<V>, Memory>
        ensures { IfOk result (λ version. version ≡ with_pair (key, value.value) self.now) }
    {
        self.tell_few();
        if self.has(&key) {
            return Ok(Version {
                tree: self.tree.replace(alloc, &key, value)?,
                more: self.more,
            });
        }
        let more = self.all_others(&key);
        Ok(Version {
            tree: self.tree.put(alloc, &key, value)?,
            more,
        })
    }

    /// A version without the pair that has this key.
    pub fn without(&self, alloc: Global, key: i128) -> Result<Version<V>, Memory>
        ensures { IfOk result (λ version. version ≡ without_key key self.now) }
    {
        self.tell_few();
        let others = self.others(&key);
        Ok(Version {
            tree: self.tree.cut(alloc, &key)?,
            more: others.saturating_sub(1),
        })
    }

    /// Does nothing. It tells what follows: there are no more pairs than keys.
    fn tell_few(&self)
        ensures { length self.now ≤ 2 ^ 128 }
    {
        // Where a field is read, the invariant is known.
        let _more = self.more;
    }

    /// How many pairs have other keys than this.
    fn others(&self, key: &i128) -> u128
        ensures { result ≡ length (without_key key.now self.now) }
    {
        if self.has(key) {
            self.more
        } else {
            self.all_others(key)
        }
    }

    /// The same where none has this key: all of them.
    fn all_others(&self, key: &i128) -> u128
        requires other { is_some (value_at key.now self.now) ≡ false }
        ensures { result ≡ length (without_key key.now self.now) }
    {
        // Its value is an `i128`, so there are fewer pairs than keys where none has it.
        let _value = *key;
        if self.tree.is_empty() {
            0
        } else {
            self.more + 1
        }
    }

    /// Whether a pair has this key.
    fn has(&self, key: &i128) -> bool
        ensures { result ≡ is_some (value_at key.now self.now) }
    {
        holds::<V, Brand>(&self.tree, key, Blank::new(1))
    }
}

/// Whether a tree has a pair with this key. The steps aren't anybody's.
fn holds<V: Drop, L: Ledger>(tree: &Tree<V>, key: &i128, blank: Blank) -> bool
    requires rising { IsRising tree.now.0 }
    requires name { blank.name ≡ L.name }
    requires parts { blank.parts ≡ L.parts }
    requires one { 0 < L.parts }
    ensures { result ≡ is_some (value_at key.now tree.now.0) }
{
    let mut steps = Steps::<L>::new(blank);
    tree.find(key, &mut steps).is_some()
}
