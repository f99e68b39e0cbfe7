//! The tree below a version: nodes with a left and a right side, whose heights differ by at most one.
//! It knows no order of keys but where that is a condition.
ghost use Rattle.std.specs.Prelude.{◌≡◌, ◌+◌, ◌*◌, ◌^◌, ◌<◌, ◌≤◌, max, [], ◌∷◌, ◌++◌, length, ◌↔◌, IfOk, IsTrue};
ghost use Rattle.shared_tree.specs.Within.Heights.{DifferByAtMost, SettlesTo, least};
ghost use Rattle.shared_tree.specs.Pairs.{digits};

use std::alloc::{AllocError, Global};
use std::cmp::Ordering;
use std::marker::Model;
use std::rc::Rc;

/// A balanced tree. Contracts see its pairs in order, and its height. An empty one takes no memory.
#[cycle(tree)]
#[derive(Drop)]
pub(crate) struct Tree<V> {
    pub(crate) root: Option<Rc<Fork<V>>>,
}

/// A node: a pair between two sides.
#[cycle(tree)]
#[derive(Drop)]
pub(crate) struct Fork<V> {
    pub(crate) left: Tree<V>,
    pub(crate) key: i128,
    pub(crate) value: Rc<V>,
    pub(crate) right: Tree<V>,
    pub(crate) height: u16,
}

impl<V> Model for Tree<V> {
    ghost use Rattle.std.specs.Prelude.{ℕ, ℤ, List, length};

    ghost Value = { List (ℤ × V) × ℕ };

    ghost use Rattle.shared_tree.specs.Within.Forks.{IsBalanced, seen};

    ghost view = { seen };

    ghost invariant = { IsBalanced };

    ghost size = { λ d. length d.0 };

    ghost use Rattle.std.proofs.Common.{arith, length-append};

    ghost size_decreases = { λ a h. Prim.grind (arith, length-append) };
}

impl<V: Drop> Tree<V> {
    /// A tree without pairs.
    pub(crate) fn empty() -> Tree<V>
        ensures { result ≡ ([], 0) }
    {
        Tree { root: None }
    }

    /// Whether there is no pair.
    pub(crate) fn is_empty(&self) -> bool
        ensures { IsTrue result ↔ (self.now.0 ≡ []) }
    {
        self.root.is_none()
    }

    /// The height, which is 0 for an empty tree.
    pub(crate) fn height(&self) -> u16
        ensures { result ≡ self.now.1 }
    {
        match &self.root {
            None => 0,
            Some(fork) => {
                let fork: &Fork<V> = fork;
                fork.height
            }
        }
    }

    /// The same tree once more: it shares all nodes. The error is for a count of owners that is full.
    pub(crate) fn share(&self) -> Result<Tree<V>, AllocError>
        ensures { IfOk result (λ tree. tree ≡ self.now) }
    {
        match &self.root {
            None => Ok(Tree { root: None }),
            Some(fork) => Ok(Tree {
                root: Some(fork.clone()?),
            }),
        }
    }

    /// Does nothing. It tells what is known of each tree: it has as many pairs as its height asks for.
    pub(crate) fn tell_filled(&self)
        ensures { least self.now.1 ≤ length self.now.0 + 1 }
    {
        match &self.root {
            None => {}
            Some(_) => {}
        }
    }

    /// Does nothing. It tells what follows: how high a tree of so many pairs may be.
    #[tactic(auto, using(crate::proofs::Heights::height_by_digits))]
    pub(crate) fn tell_low(&self)
        ensures { self.now.1 ≤ 2 * digits (length self.now.0) }
    {
        self.tell_filled();
    }
}

/// A node of this height with these sides, whose heights differ by at most one.
pub(crate) fn node<V: Drop>(
    alloc: Global,
    left: Tree<V>,
    key: &i128,
    value: Rc<V>,
    right: Tree<V>,
    height: u16,
) -> Result<Tree<V>, AllocError>
    requires level { DifferByAtMost 1 left.1 right.1 }
    requires height { height ≡ max left.1 right.1 + 1 }
    ensures pairs { IfOk result (λ t. t.0 ≡ left.0 ++ (key.now, value.value) ∷ right.0) }
    ensures height { IfOk result (λ t. t.1 ≡ height) }
{
    left.tell_filled();
    right.tell_filled();
    let fork = Rc::new(
        alloc,
        Fork {
            left,
            key: *key,
            value,
            right,
            height,
        },
    );
    match fork {
        Ok(fork) => Ok(Tree { root: Some(fork) }),
        Err(_) => Err(AllocError),
    }
}

/// A node with these sides, whose heights differ by at most one.
fn join<V: Drop>(
    alloc: Global,
    left: Tree<V>,
    key: &i128,
    value: Rc<V>,
    right: Tree<V>,
) -> Result<Tree<V>, AllocError>
    requires level { DifferByAtMost 1 left.1 right.1 }
    requires few { length left.0 + length right.0 < 2 ^ 130 }
    ensures pairs { IfOk result (λ t. t.0 ≡ left.0 ++ (key.now, value.value) ∷ right.0) }
    ensures height { IfOk result (λ t. t.1 ≡ max left.1 right.1 + 1) }
{
    left.tell_filled();
    right.tell_filled();
    let height = left.height().max(right.height()) + 1;
    node(alloc, left, key, value, right, height)
}

/// A node with these sides, whose heights differ by at most two: a side that is too high is turned.
pub(crate) fn balance<V: Drop>(
    alloc: Global,
    left: Tree<V>,
    key: &i128,
    value: Rc<V>,
    right: Tree<V>,
) -> Result<Tree<V>, AllocError>
    requires level { DifferByAtMost 2 left.1 right.1 }
    requires few { length left.0 + length right.0 < 2 ^ 130 }
    ensures pairs { IfOk result (λ t. t.0 ≡ left.0 ++ (key.now, value.value) ∷ right.0) }
    ensures height { IfOk result (λ t. SettlesTo left.1 right.1 t.1) }
{
    if left.height().saturating_sub(right.height()) > 1 {
        turn_right(alloc, &left, key, value, right)
    } else if right.height().saturating_sub(left.height()) > 1 {
        turn_left(alloc, left, key, value, &right)
    } else {
        join(alloc, left, key, value, right)
    }
}

/// Turns a left side that is two levels higher to the right, which leaves the pairs in their order.
fn turn_right<V: Drop>(
    alloc: Global,
    left: &Tree<V>,
    key: &i128,
    value: Rc<V>,
    right: Tree<V>,
) -> Result<Tree<V>, AllocError>
    requires two_higher { left.now.1 ≡ right.1 + 2 }
    requires few { length left.now.0 + length right.0 < 2 ^ 130 }
    ensures pairs { IfOk result (λ t. t.0 ≡ left.now.0 ++ (key.now, value.value) ∷ right.0) }
    ensures height { IfOk result (λ t. SettlesTo left.now.1 right.1 t.1) }
{
    let Some(side) = &left.root else {
        unreachable!()
    };
    let side: &Fork<V> = side;
    if side.left.height() >= side.right.height() {
        let low = join(alloc, side.right.share()?, key, value, right)?;
        return join(
            alloc,
            side.left.share()?,
            &side.key,
            side.value.clone()?,
            low,
        );
    }
    let Some(middle) = &side.right.root else {
        unreachable!()
    };
    let middle: &Fork<V> = middle;
    let low = join(alloc, middle.right.share()?, key, value, right)?;
    let high = join(
        alloc,
        side.left.share()?,
        &side.key,
        side.value.clone()?,
        middle.left.share()?,
    )?;
    join(alloc, high, &middle.key, middle.value.clone()?, low)
}

/// Turns a right side that is two levels higher to the left, which leaves the pairs in their order.
fn turn_left<V: Drop>(
    alloc: Global,
    left: Tree<V>,
    key: &i128,
    value: Rc<V>,
    right: &Tree<V>,
) -> Result<Tree<V>, AllocError>
    requires two_higher { right.now.1 ≡ left.1 + 2 }
    requires few { length left.0 + length right.now.0 < 2 ^ 130 }
    ensures pairs { IfOk result (λ t. t.0 ≡ left.0 ++ (key.now, value.value) ∷ right.now.0) }
    ensures height { IfOk result (λ t. SettlesTo left.1 right.now.1 t.1) }
{
    let Some(side) = &right.root else {
        unreachable!()
    };
    let side: &Fork<V> = side;
    if side.right.height() >= side.left.height() {
        let low = join(alloc, left, key, value, side.left.share()?)?;
        return join(
            alloc,
            low,
            &side.key,
            side.value.clone()?,
            side.right.share()?,
        );
    }
    let Some(middle) = &side.left.root else {
        unreachable!()
    };
    let middle: &Fork<V> = middle;
    let low = join(alloc, left, key, value, middle.left.share()?)?;
    let high = join(
        alloc,
        middle.right.share()?,
        &side.key,
        side.value.clone()?,
        side.right.share()?,
    )?;
    join(alloc, low, &middle.key, middle.value.clone()?, high)
}
