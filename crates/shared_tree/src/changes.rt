//! Changes of a tree: a pair put at its key, and a pair taken out. Each makes new nodes on the way to the
//! key, and shares all others with the old tree.
ghost use Rattle.std.specs.Prelude.{◌≡◌, ◌+◌, ◌^◌, ◌<◌, ◌≤◌, [], ◌∷◌, ◌++◌, length, max, IfOk, is_some, true};
ghost use Rattle.shared_tree.specs.Within.Forks.{IsTakenFrom};
ghost use Rattle.shared_tree.specs.Within.Heights.{DifferByAtMost, SettlesTo};
ghost use Rattle.shared_tree.specs.Pairs.{IsRising, value_at, with_pair, without_key};

use crate::tree::{Fork, Tree, balance, node};
use std::alloc::{AllocError, Global};
use std::cmp::Ordering;
use std::rc::Rc;

/// A pair that was taken from the front of a tree, and the rest.
#[derive(Drop)]
struct Taken<V> {
    key: i128,
    value: Rc<V>,
    rest: Tree<V>,
}

impl<V: Drop> Tree<V> {
    /// The tree with this pair at its place, instead of the one that had its key.
    pub(crate) fn put(&self, alloc: Global, key: &i128, value: Rc<V>) -> Result<Tree<V>, AllocError>
        requires rising { IsRising self.now.0 }
        requires few { length self.now.0 ≤ 2 ^ 128 }
        ensures pairs { IfOk result (λ t. t.0 ≡ with_pair (key.now, value.value) self.now.0) }
        ensures not_lower { IfOk result (λ t. self.now.1 ≤ t.1) }
        ensures at_most_one_higher { IfOk result (λ t. t.1 ≤ self.now.1 + 1) }
    {
        let Some(fork) = &self.root else {
            return balance(alloc, Tree::empty(), key, value, Tree::empty());
        };
        let fork: &Fork<V> = fork;
        match key.cmp(&fork.key) {
            Ordering::Less => {
                let left = fork.left.put(alloc, key, value)?;
                balance(
                    alloc,
                    left,
                    &fork.key,
                    fork.value.clone()?,
                    fork.right.share()?,
                )
            }
            Ordering::Greater => {
                let right = fork.right.put(alloc, key, value)?;
                balance(
                    alloc,
                    fork.left.share()?,
                    &fork.key,
                    fork.value.clone()?,
                    right,
                )
            }
            Ordering::Equal => {
                balance(alloc, fork.left.share()?, key, value, fork.right.share()?)
            }
        }
    }

    /// The tree with this value at a key that it has. Each new node is as high as the one in its place.
    pub(crate) fn replace(
        &self,
        alloc: Global,
        key: &i128,
        value: Rc<V>,
    ) -> Result<Tree<V>, AllocError>
        requires rising { IsRising self.now.0 }
        requires held { is_some (value_at key.now self.now.0) ≡ true }
        ensures pairs { IfOk result (λ t. t.0 ≡ with_pair (key.now, value.value) self.now.0) }
        ensures height { IfOk result (λ t. t.1 ≡ self.now.1) }
    {
        let Some(fork) = &self.root else {
            unreachable!()
        };
        let fork: &Fork<V> = fork;
        match key.cmp(&fork.key) {
            Ordering::Less => {
                let left = fork.left.replace(alloc, key, value)?;
                let (own, other) = (fork.value.clone()?, fork.right.share()?);
                node(alloc, left, &fork.key, own, other, fork.height)
            }
            Ordering::Greater => {
                let right = fork.right.replace(alloc, key, value)?;
                let (own, other) = (fork.value.clone()?, fork.left.share()?);
                node(alloc, other, &fork.key, own, right, fork.height)
            }
            Ordering::Equal => {
                let (left, right) = (fork.left.share()?, fork.right.share()?);
                node(alloc, left, key, value, right, fork.height)
            }
        }
    }

    /// The tree without the pair that has this key.
    pub(crate) fn cut(&self, alloc: Global, key: &i128) -> Result<Tree<V>, AllocError>
        requires rising { IsRising self.now.0 }
        requires few { length self.now.0 ≤ 2 ^ 128 }
        ensures pairs { IfOk result (λ t. t.0 ≡ without_key key.now self.now.0) }
        ensures not_higher { IfOk result (λ t. t.1 ≤ self.now.1) }
        ensures at_most_one_lower { IfOk result (λ t. self.now.1 ≤ t.1 + 1) }
    {
        let Some(fork) = &self.root else {
            return Ok(Tree::empty());
        };
        let fork: &Fork<V> = fork;
        match key.cmp(&fork.key) {
            Ordering::Less => {
                let left = fork.left.cut(alloc, key)?;
                balance(
                    alloc,
                    left,
                    &fork.key,
                    fork.value.clone()?,
                    fork.right.share()?,
                )
            }
            Ordering::Greater => {
                let right = fork.right.cut(alloc, key)?;
                balance(
                    alloc,
                    fork.left.share()?,
                    &fork.key,
                    fork.value.clone()?,
                    right,
                )
            }
            Ordering::Equal => meet(alloc, &fork.left, &fork.right),
        }
    }

    /// The first pair and the rest, if there is a pair.
    fn take_first(&self, alloc: Global) -> Result<Option<Taken<V>>, AllocError>
        requires few { length self.now.0 ≤ 2 ^ 128 }
        ensures { IfOk result (IsTakenFrom self.now) }
    {
        let Some(fork) = &self.root else {
            return Ok(None);
        };
        let fork: &Fork<V> = fork;
        match fork.left.take_first(alloc)? {
            None => Ok(Some(Taken {
                key: fork.key,
                value: fork.value.clone()?,
                rest: fork.right.share()?,
            })),
            Some(taken) => Ok(Some(Taken {
                key: taken.key,
                value: taken.value,
                rest: balance(
                    alloc,
                    taken.rest,
                    &fork.key,
                    fork.value.clone()?,
                    fork.right.share()?,
                )?,
            })),
        }
    }
}

/// The pairs of two sides whose node goes, one side behind the other.
fn meet<V: Drop>(alloc: Global, left: &Tree<V>, right: &Tree<V>) -> Result<Tree<V>, AllocError>
    requires level { DifferByAtMost 1 left.now.1 right.now.1 }
    requires few { length left.now.0 + length right.now.0 ≤ 2 ^ 128 }
    ensures pairs { IfOk result (λ t. t.0 ≡ left.now.0 ++ right.now.0) }
    ensures not_higher { IfOk result (λ t. t.1 ≤ max left.now.1 right.now.1 + 1) }
    ensures at_most_one_lower { IfOk result (λ t. max left.now.1 right.now.1 ≤ t.1) }
{
    match right.take_first(alloc)? {
        None => left.share(),
        Some(Taken { key, value, rest }) => balance(alloc, left.share()?, &key, value, rest),
    }
}
