//! Holes in an order: a balanced tree (AVL) in which a node stores which side is higher, and what its sort keeps of each.
ghost use Rattle.std.specs.Prelude.{◌≡◌, ◌+◌, ◌==◌, ◌≤◌, max, [], ◌∷◌, ◌++◌, true, IsSome, IfNone, IfSome, Some, is_some, option_map, if◌then◌else◌};
ghost use Rattle.std.specs.Bool.{OnTrue};
ghost use Rattle.std.specs.List.{find};
ghost use Rattle.ttm_base.specs.Holes.{has_page};
ghost use Rattle.ttm_base.specs.Reach.{length_of};
ghost use Rattle.hole_tree.specs.HoleSet.{starts_at};
ghost use Rattle.hole_tree.specs.Leaning.{Leans};
ghost use Rattle.hole_tree.specs.Longest.{longest};
ghost use Rattle.hole_tree.specs.Rising.{IsRising};
ghost use Rattle.hole_tree.specs.Shape.{no_shape, IsLow};
ghost use Rattle.hole_tree.specs.Sorting.{ties, IsSorted, placed, untied, replaced};
ghost use Rattle.hole_tree.specs.Trees.{spans_of, height_of, shape_of_node, HasSides, IsSound, IsBlankNode};
ghost use Rattle.hole_tree.specs.declared.lean.Lean.TheVariants.{Left, Right};

use crate::hole::Hole;
use crate::lean::Lean;
use crate::sort::{Longest, Side, Sort};
use std::marker::Model;
use std::mem;
use step_count::Steps;
use step_count::ledger::Ledger;
use ttm_base::Span;

/// Holes in an order.
#[cycle(tree)]
#[derive(Drop)]
pub struct Tree<S: Side> {
    top: Top<S>,
}

#[cycle(tree)]
#[derive(Drop)]
enum Top<S: Side> {
    Empty,
    Full(Box<Node<S>>),
}

/// A hole, the holes on both sides of it, and what is kept of each side.
#[cycle(tree)]
#[derive(Drop)]
pub struct Node<S: Side> {
    pub left: Tree<S>,
    pub hole: Hole,
    pub right: Tree<S>,
    pub of_left: S,
    pub of_right: S,
    lean: Lean,
}

/// A node that was taken out.
#[derive(Drop)]
pub struct Taken<S: Side> {
    pub node: Box<Node<S>>,
    /// The tree has lost a level.
    pub lower: bool,
}

impl<S: Side> Model for Tree<S> {
    ghost use Rattle.std.specs.Prelude.{length};
    ghost use Rattle.hole_tree.specs.Shape.{Shape};

    ghost Value = { Shape };

    ghost use Rattle.hole_tree.specs.Trees.{shape_of, IsTree};

    ghost view = { λ t. shape_of t.top };

    ghost invariant = { λ t. IsTree S.keeps t.top };

    ghost size = { λ s. length s.spans };

    ghost use Rattle.std.proofs.Common.{arith, length-append};

    ghost size_decreases = { λ a h. Prim.grind (arith, length-append) };
}

impl<S: Side> Tree<S> {
    /// No hole.
    pub(crate) fn new() -> Tree<S>
        ensures { result ≡ no_shape }
    {
        Tree { top: Top::Empty }
    }

    /// That it is balanced bounds its levels. Nothing is computed.
    #[tactic(auto, using(crate::proofs::Sides::low_top))]
    pub(crate) fn balanced(&self)
        ensures { IsLow self.now }
    {
        let _ = &self.top;
    }

    /// The tree of a root.
    #[tactic(auto, using(crate::proofs::Sides::low_root))]
    fn of(node: Box<Node<S>>) -> Tree<S>
        requires { IsSound S.keeps node.value }
        ensures shape { result ≡ shape_of_node node.value }
        ensures low { IsLow result }
    {
        Tree {
            top: Top::Full(node),
        }
    }

    fn is_empty(&self) -> bool
        ensures shape { OnTrue result (self.now ≡ no_shape) }
        ensures height { result ≡ (self.now.height == 0) }
    {
        match &self.top {
            Top::Empty => true,
            Top::Full(_) => false,
        }
    }

    /// What a node above keeps of it.
    pub(crate) fn kept(&self) -> S
        ensures { result ≡ S.keeps (longest self.now.spans) }
    {
        match &self.top {
            Top::Empty => S::of(0),
            Top::Full(node) => node.kept(),
        }
    }

    /// The node at the root. Searches for a request open nodes here alone: this is the step that is counted.
    pub(crate) fn open<L: Ledger>(&self, steps: &mut Steps<L>) -> Option<&Node<S>>
        ensures none { IfNone result (self.now.spans ≡ []) }
        ensures shape { IfSome result (λ n. self.now ≡ shape_of_node n.now) }
        ensures sound { IfSome result (λ n. IsSound S.keeps n.now) }
        ensures steps { steps.new ≡ steps.old + (if is_some result then 1 else 0) }
    {
        match &self.top {
            Top::Empty => None,
            Top::Full(node) => {
                steps.tick();
                Some(node)
            }
        }
    }

    /// Takes off the root with all below it.
    fn detach(&mut self) -> Box<Node<S>>
        requires { 1 ≤ self.old.height }
        ensures shape { shape_of_node result.value ≡ self.old }
        ensures sound { IsSound S.keeps result.value }
        ensures empty { self.new ≡ no_shape }
    {
        let Top::Full(node) = mem::replace(&mut self.top, Top::Empty) else {
            unreachable!()
        };
        node
    }

    /// Puts both sides of a root that was taken off in its place, without it.
    fn close_over(&mut self, mut node: Box<Node<S>>) -> Taken<S>
        requires off { self.old ≡ no_shape }
        requires sound { IsSound S.keeps node.value }
        ensures hole { result.node.value.hole ≡ node.value.hole }
        ensures blank { IsBlankNode S.keeps result.node.value }
        ensures spans { self.new.spans ≡ node.value.left.spans ++ node.value.right.spans }
        ensures height { height_of node.value ≡ self.new.height + (if result.lower then 1 else 0) }
        ensures low { IsLow self.new }
    {
        let root = &mut *node;
        if root.right.is_empty() {
            mem::swap(self, &mut root.left);
            return Taken::alone(node);
        }
        if root.left.is_empty() {
            mem::swap(self, &mut root.right);
            return Taken::alone(node);
        }
        let Taken {
            node: mut next,
            lower,
        } = root.right.take_first();
        let hole = next.hole;
        next.hole = root.hole;
        root.hole = hole;
        let lower = shrunk_right(&mut node, hole.pages(), lower);
        *self = Tree::of(node);
        Taken { node: next, lower }
    }

    /// Takes out the first node.
    fn take_first(&mut self) -> Taken<S>
        requires { 1 ≤ self.old.height }
        ensures spans { self.old.spans ≡ result.node.value.hole ∷ self.new.spans }
        ensures blank { IsBlankNode S.keeps result.node.value }
        ensures height { self.old.height ≡ self.new.height + (if result.lower then 1 else 0) }
        ensures low { IsLow self.new }
    {
        let Top::Full(node) = &mut self.top else {
            unreachable!()
        };
        let root = &mut **node;
        if !root.left.is_empty() {
            let Taken { node: first, lower } = root.left.take_first();
            let lower = shrunk_left(node, first.hole.pages(), lower);
            return Taken { node: first, lower };
        }
        let Top::Full(mut node) = mem::replace(&mut self.top, Top::Empty) else {
            unreachable!()
        };
        mem::swap(self, &mut node.right);
        Taken::alone(node)
    }

    /// The node at the root, for a search that isn't counted.
    pub(crate) fn root(&self) -> Option<&Node<S>>
        ensures none { IfNone result (self.now.spans ≡ []) }
        ensures spans { IfSome result (λ n. self.now.spans ≡ spans_of n.now) }
    {
        match &self.top {
            Top::Empty => None,
            Top::Full(node) => Some(node),
        }
    }

    /// The hole that has a page.
    pub(crate) fn around(&self, page: u32) -> Option<&Hole>
        requires rising { IsRising self.now.spans }
        ensures { option_map (λ hole. hole.now) result ≡ find (has_page page) self.now.spans }
    {
        let Top::Full(node) = &self.top else {
            return None;
        };
        if page < node.hole.start() {
            node.left.around(page)
        } else if page < node.hole.end() {
            Some(&node.hole)
        } else {
            node.right.around(page)
        }
    }
}

impl<S: Sort> Tree<S> {
    /// Puts a node into its place, and says whether the tree has grown by a level.
    #[tactic(auto, using(crate::proofs::LongestNode::longest_placed))]
    pub(crate) fn insert(&mut self, fresh: Box<Node<S>>) -> bool
        requires sorted { IsSorted S.order self.old.spans }
        requires blank { IsBlankNode S.keeps fresh.value }
        ensures spans { self.new.spans ≡ placed S.order fresh.value.hole self.old.spans }
        ensures height { self.new.height ≡ self.old.height + (if result then 1 else 0) }
        ensures low { IsLow self.new }
    {
        let Top::Full(node) = &mut self.top else {
            self.top = Top::Full(fresh);
            return true;
        };
        let root = &mut **node;
        if S::order().is_before(fresh.hole, root.hole) {
            root.of_left = root.of_left.both(S::of(fresh.hole.pages()));
            let grew = root.left.insert(fresh);
            return grown_left(node, grew);
        }
        root.of_right = root.of_right.both(S::of(fresh.hole.pages()));
        let grew = root.right.insert(fresh);
        grown_right(node, grew)
    }

    /// Takes out the node of the hole that ties with the one that is sought.
    pub(crate) fn take(&mut self, sought: &Hole) -> Taken<S>
        requires sorted { IsSorted S.order self.old.spans }
        requires held { IsSome (find (ties S.order sought.now) self.old.spans) }
        ensures found { find (ties S.order sought.now) self.old.spans ≡ Some result.node.value.hole }
        ensures blank { IsBlankNode S.keeps result.node.value }
        ensures left { self.new.spans ≡ untied S.order sought.now self.old.spans }
        ensures height { self.old.height ≡ self.new.height + (if result.lower then 1 else 0) }
        ensures low { IsLow self.new }
    {
        let Top::Full(node) = &mut self.top else {
            unreachable!()
        };
        let root = &mut **node;
        if S::order().is_before(*sought, root.hole) {
            let Taken { node: found, lower } = root.left.take(sought);
            let lower = shrunk_left(node, found.hole.pages(), lower);
            return Taken { node: found, lower };
        }
        if S::order().is_before(root.hole, *sought) {
            let Taken { node: found, lower } = root.right.take(sought);
            let lower = shrunk_right(node, found.hole.pages(), lower);
            return Taken { node: found, lower };
        }
        let Top::Full(found) = mem::replace(&mut self.top, Top::Empty) else {
            unreachable!()
        };
        self.close_over(found)
    }
}

impl<S: Longest> Tree<S> {
    /// Puts another hole in the place of one. Neither is longer than `longer` pages.
    pub(crate) fn resize(&mut self, from: &Hole, to: &Hole, longer: u32)
        requires rising { IsRising self.old.spans }
        requires held { find (starts_at from.now.start) self.old.spans ≡ Some from.now }
        requires longer_from { length_of from.now ≤ longer }
        requires longer_to { length_of to.now ≤ longer }
        ensures spans { self.new.spans ≡ replaced from.now.start to.now self.old.spans }
        ensures height { self.new.height ≡ self.old.height }
    {
        let Top::Full(node) = &mut self.top else {
            unreachable!()
        };
        let node = &mut **node;
        if from.start() < node.hole.start() {
            node.left.resize(from, to, longer);
            if node.of_left.longest() <= longer {
                node.of_left = node.left.kept();
            }
            return;
        }
        if node.hole.start() < from.start() {
            node.right.resize(from, to, longer);
            if node.of_right.longest() <= longer {
                node.of_right = node.right.kept();
            }
            return;
        }
        node.hole = *to;
    }
}

impl<S: Side> Node<S> {
    /// A node for a hole to come.
    pub(crate) fn blank() -> Node<S>
        ensures { IsBlankNode S.keeps result }
    {
        Node {
            left: Tree::new(),
            hole: Hole::of(Span { start: 0, end: 0 }),
            right: Tree::new(),
            of_left: S::of(0),
            of_right: S::of(0),
            lean: Lean::Even,
        }
    }

    /// What a node above keeps of it and the holes on both sides.
    #[tactic(auto, using(crate::proofs::LongestNode::longest_node))]
    fn kept(&self) -> S
        requires of_left { self.now.of_left ≡ S.keeps (longest self.now.left.spans) }
        requires of_right { self.now.of_right ≡ S.keeps (longest self.now.right.spans) }
        ensures { result ≡ S.keeps (longest (spans_of self.now)) }
    {
        let own = S::of(self.hole.pages());
        self.of_left.both(own.both(self.of_right))
    }
}

impl<S: Side> Taken<S> {
    /// Returns `node`, which has no sides any more, emptied: its level is gone with it.
    fn alone(mut node: Box<Node<S>>) -> Taken<S>
        requires left { node.value.left ≡ no_shape }
        requires right { node.value.right ≡ no_shape }
        ensures blank { IsBlankNode S.keeps result.node.value }
        ensures hole { result.node.value.hole ≡ node.value.hole }
        ensures lower { result.lower ≡ true }
    {
        let blank = &mut *node;
        blank.of_left = S::of(0);
        blank.of_right = S::of(0);
        blank.lean = Lean::Even;
        Taken { node, lower: true }
    }
}

/// Mends a node whose left side has grown by a level where `grew`, and says whether the node has grown too.
#[inline(always)]
fn grown_left<S: Side>(node: &mut Box<Node<S>>, grew: bool) -> bool
    requires lean { Leans node.old.value.lean node.old.value.left.height (node.old.value.right.height + (if grew then 1 else 0)) }
    requires sides { HasSides S.keeps node.old.value }
    ensures spans { spans_of node.new.value ≡ spans_of node.old.value }
    ensures height { height_of node.new.value + (if grew then 1 else 0) ≡ max node.old.value.left.height (node.old.value.right.height + (if grew then 1 else 0)) + 1 + (if result then 1 else 0) }
    ensures sound { IsSound S.keeps node.new.value }
{
    grew && mend_left(node)
}

/// Does the same where the right side has grown.
#[inline(always)]
fn grown_right<S: Side>(node: &mut Box<Node<S>>, grew: bool) -> bool
    requires lean { Leans node.old.value.lean (node.old.value.left.height + (if grew then 1 else 0)) node.old.value.right.height }
    requires sides { HasSides S.keeps node.old.value }
    ensures spans { spans_of node.new.value ≡ spans_of node.old.value }
    ensures height { height_of node.new.value + (if grew then 1 else 0) ≡ max (node.old.value.left.height + (if grew then 1 else 0)) node.old.value.right.height + 1 + (if result then 1 else 0) }
    ensures sound { IsSound S.keeps node.new.value }
{
    grew && mend_right(node)
}

/// Mends a node from whose left side a hole of `gone` pages went, and a level too where `lower`. It says whether the node
/// has lost a level.
#[inline(always)]
fn shrunk_left<S: Side>(node: &mut Box<Node<S>>, gone: u32, lower: bool) -> bool
    requires lean { Leans node.old.value.lean (node.old.value.left.height + (if lower then 1 else 0)) node.old.value.right.height }
    requires left { IsLow node.old.value.left }
    requires right { IsLow node.old.value.right }
    requires of_left { node.old.value.of_left ≡ S.keeps (max gone (longest node.old.value.left.spans)) }
    requires of_right { node.old.value.of_right ≡ S.keeps (longest node.old.value.right.spans) }
    ensures spans { spans_of node.new.value ≡ spans_of node.old.value }
    ensures height { max (node.old.value.left.height + (if lower then 1 else 0)) node.old.value.right.height + 1 ≡ height_of node.new.value + (if result then 1 else 0) }
    ensures sound { IsSound S.keeps node.new.value }
{
    let root = &mut **node;
    if root.of_left.may_lose(gone) {
        root.of_left = root.left.kept();
    }
    lower && !mend_right(node)
}

/// Does the same where it went from the right side.
#[inline(always)]
fn shrunk_right<S: Side>(node: &mut Box<Node<S>>, gone: u32, lower: bool) -> bool
    requires lean { Leans node.old.value.lean node.old.value.left.height (node.old.value.right.height + (if lower then 1 else 0)) }
    requires left { IsLow node.old.value.left }
    requires right { IsLow node.old.value.right }
    requires of_left { node.old.value.of_left ≡ S.keeps (longest node.old.value.left.spans) }
    requires of_right { node.old.value.of_right ≡ S.keeps (max gone (longest node.old.value.right.spans)) }
    ensures spans { spans_of node.new.value ≡ spans_of node.old.value }
    ensures height { max node.old.value.left.height (node.old.value.right.height + (if lower then 1 else 0)) + 1 ≡ height_of node.new.value + (if result then 1 else 0) }
    ensures sound { IsSound S.keeps node.new.value }
{
    let root = &mut **node;
    if root.of_right.may_lose(gone) {
        root.of_right = root.right.kept();
    }
    lower && !mend_left(node)
}

/// Mends a node whose left side has grown by a level, and says whether the node has grown too. It mends one whose right
/// side has lost a level as well: that node has lost one where this says that it hasn't grown.
#[inline(always)]
fn mend_left<S: Side>(node: &mut Box<Node<S>>) -> bool
    requires grown { Leans node.old.value.lean node.old.value.left.height (node.old.value.right.height + 1) }
    requires sides { HasSides S.keeps node.old.value }
    ensures spans { spans_of node.new.value ≡ spans_of node.old.value }
    ensures height { height_of node.new.value ≡ max node.old.value.left.height (node.old.value.right.height + 1) + (if result then 1 else 0) }
    ensures sound { IsSound S.keeps node.new.value }
{
    match node.lean {
        Lean::Even => {
            node.lean = Lean::Left;
            true
        }
        Lean::Right => {
            node.lean = Lean::Even;
            false
        }
        Lean::Left => !turn_right(node),
    }
}

/// The same, where the right side has grown.
#[inline(always)]
fn mend_right<S: Side>(node: &mut Box<Node<S>>) -> bool
    requires grown { Leans node.old.value.lean (node.old.value.left.height + 1) node.old.value.right.height }
    requires sides { HasSides S.keeps node.old.value }
    ensures spans { spans_of node.new.value ≡ spans_of node.old.value }
    ensures height { height_of node.new.value ≡ max (node.old.value.left.height + 1) node.old.value.right.height + (if result then 1 else 0) }
    ensures sound { IsSound S.keeps node.new.value }
{
    match node.lean {
        Lean::Even => {
            node.lean = Lean::Right;
            true
        }
        Lean::Left => {
            node.lean = Lean::Even;
            false
        }
        Lean::Right => !turn_left(node),
    }
}

/// Balances a node whose left side is two levels higher, and says whether it has a level less then.
fn turn_right<S: Side>(node: &mut Box<Node<S>>) -> bool
    requires lean { node.old.value.lean ≡ Left }
    requires higher { node.old.value.left.height ≡ node.old.value.right.height + 2 }
    requires sides { HasSides S.keeps node.old.value }
    ensures spans { spans_of node.new.value ≡ spans_of node.old.value }
    ensures height { height_of node.new.value + (if result then 1 else 0) ≡ node.old.value.left.height + 1 }
    ensures sound { IsSound S.keeps node.new.value }
{
    let mut low = node.left.detach();
    let lower = match low.lean {
        Lean::Right => {
            let mut middle = low.right.detach();
            mem::swap(node, &mut middle);
            part(node, low, middle);
            return true;
        }
        Lean::Even => {
            low.lean = Lean::Right;
            false
        }
        Lean::Left => {
            low.lean = Lean::Even;
            node.lean = Lean::Even;
            true
        }
    };
    mem::swap(node, &mut low);
    hang_right(node, low);
    lower
}

/// The same, where the right side is two levels higher.
fn turn_left<S: Side>(node: &mut Box<Node<S>>) -> bool
    requires lean { node.old.value.lean ≡ Right }
    requires higher { node.old.value.right.height ≡ node.old.value.left.height + 2 }
    requires sides { HasSides S.keeps node.old.value }
    ensures spans { spans_of node.new.value ≡ spans_of node.old.value }
    ensures height { height_of node.new.value + (if result then 1 else 0) ≡ node.old.value.right.height + 1 }
    ensures sound { IsSound S.keeps node.new.value }
{
    let mut high = node.right.detach();
    let lower = match high.lean {
        Lean::Left => {
            let mut middle = high.left.detach();
            mem::swap(node, &mut middle);
            part(node, middle, high);
            return true;
        }
        Lean::Even => {
            high.lean = Lean::Left;
            false
        }
        Lean::Right => {
            high.lean = Lean::Even;
            node.lean = Lean::Even;
            true
        }
    };
    mem::swap(node, &mut high);
    hang_left(node, high);
    lower
}

/// Hangs `low` and `high` on both sides of a node, whose own sides go to them.
#[inline(always)]
fn part<S: Side>(node: &mut Node<S>, mut low: Box<Node<S>>, mut high: Box<Node<S>>)
    requires sound { IsSound S.keeps node.old }
    requires low_off { low.value.right ≡ no_shape }
    requires low_left { IsLow low.value.left }
    requires low_of_left { low.value.of_left ≡ S.keeps (longest low.value.left.spans) }
    requires low_height { low.value.left.height ≡ max node.old.left.height node.old.right.height }
    requires high_off { high.value.left ≡ no_shape }
    requires high_right { IsLow high.value.right }
    requires high_of_right { high.value.of_right ≡ S.keeps (longest high.value.right.spans) }
    requires high_height { high.value.right.height ≡ max node.old.left.height node.old.right.height }
    ensures spans { spans_of node.new ≡ (low.value.left.spans ++ low.value.hole ∷ node.old.left.spans) ++ node.old.hole ∷ (node.old.right.spans ++ high.value.hole ∷ high.value.right.spans) }
    ensures height { height_of node.new ≡ height_of node.old + 1 }
    ensures sound { IsSound S.keeps node.new }
{
    (low.lean, high.lean) = node.lean.parted();
    node.lean = Lean::Even;
    hang_left(node, low);
    hang_right(node, high);
}

/// Hangs a node on the left of another, whose left side goes to its right.
#[inline(always)]
fn hang_left<S: Side>(root: &mut Node<S>, mut below: Box<Node<S>>)
    requires off { below.value.right ≡ no_shape }
    requires sides { HasSides S.keeps root.old }
    requires left { IsLow below.value.left }
    requires of_left { below.value.of_left ≡ S.keeps (longest below.value.left.spans) }
    requires lean { Leans below.value.lean below.value.left.height root.old.left.height }
    ensures spans { root.new.left.spans ≡ below.value.left.spans ++ below.value.hole ∷ root.old.left.spans }
    ensures height { root.new.left.height ≡ max below.value.left.height root.old.left.height + 1 }
    ensures hole { root.new.hole ≡ root.old.hole }
    ensures right { root.new.right ≡ root.old.right }
    ensures lean { root.new.lean ≡ root.old.lean }
    ensures sides { HasSides S.keeps root.new }
{
    let side = &mut *below;
    mem::swap(&mut root.left, &mut side.right);
    side.of_right = root.of_left;
    root.of_left = side.kept();
    root.left = Tree::of(below);
}

/// Hangs a node on the right of another, whose right side goes to its left.
#[inline(always)]
fn hang_right<S: Side>(root: &mut Node<S>, mut below: Box<Node<S>>)
    requires off { below.value.left ≡ no_shape }
    requires sides { HasSides S.keeps root.old }
    requires right { IsLow below.value.right }
    requires of_right { below.value.of_right ≡ S.keeps (longest below.value.right.spans) }
    requires lean { Leans below.value.lean root.old.right.height below.value.right.height }
    ensures spans { root.new.right.spans ≡ root.old.right.spans ++ below.value.hole ∷ below.value.right.spans }
    ensures height { root.new.right.height ≡ max root.old.right.height below.value.right.height + 1 }
    ensures hole { root.new.hole ≡ root.old.hole }
    ensures left { root.new.left ≡ root.old.left }
    ensures lean { root.new.lean ≡ root.old.lean }
    ensures sides { HasSides S.keeps root.new }
{
    let side = &mut *below;
    mem::swap(&mut root.right, &mut side.left);
    side.of_left = root.of_right;
    root.of_right = side.kept();
    root.right = Tree::of(below);
}
