//! The holes of a range of pages (drm_mm's hole trees).
ghost use Rattle.std.specs.Prelude.{◌≡◌, ◌+◌, ◌-◌, ◌*◌, ◌^◌, ◌<◌, ◌≤◌, max, [], length, true, Some, IsSome, OnOk, OnErr, nat_le};
ghost use Rattle.std.specs.List.{find, list_all};
ghost use Rattle.std.specs.Vec.{vec_len, vec_capacity};
ghost use Rattle.ttm_base.specs.Holes.{has_page};
ghost use Rattle.ttm_base.specs.declared.Mode.TheVariants.{Best, Low, High};
ghost use Rattle.hole_tree.specs.Choosing.{chosen_hole};
ghost use Rattle.hole_tree.specs.HoleSet.{is_apart, is_disjoint, starts_at, ends_at, with_hole, without};
ghost use Rattle.hole_tree.specs.Longest.{longest};
ghost use Rattle.hole_tree.specs.Rising.{EndsBy};
ghost use Rattle.hole_tree.specs.Trees.{IsBlankNode};

use crate::hole::Hole;
use crate::request::Request;
use crate::sort::{ByLength, ByStart, Longest, Side};
use crate::tree::{Node, Tree};
use std::alloc::Global;
use std::marker::{Brand, Model};
use step_count::Steps;
use step_count::ledger::{Blank, Ledger};
use ttm_base::{Mode, NoMemory, Span};

/// Holes of which no two overlap or touch, in two balanced trees: by start, and by length. The nodes of holes to come
/// are kept beside them.
pub struct Holes {
    by_start: Tree<ByStart>,
    by_length: Tree<ByLength>,
    count: usize,
    spare: Vec<Nodes>,
}

/// The holes that touch a span.
#[derive(Clone, Copy)]
pub struct Neighbours {
    /// It ends where the span begins.
    pub before: Option<Span>,
    /// It begins where the span ends.
    pub behind: Option<Span>,
}

/// By hand, so that no crate above proves how each part goes.
impl Drop for Holes {
    fn drop(self) {
        let Self {
            by_start: _,
            by_length: _,
            count: _,
            spare: _,
        } = self;
    }
}

/// The nodes of a hole in both trees.
#[derive(Drop)]
struct Nodes {
    by_start: Box<Node<ByStart>>,
    by_length: Box<Node<ByLength>>,
    ghost blank: { IsBlankNode ⟦<ByStart as Side>⟧.keeps by_start.value },
    ghost blank_by_length: { IsBlankNode ⟦<ByLength as Side>⟧.keeps by_length.value },
}

impl Model for Holes {
    ghost use Rattle.std.specs.Prelude.{length};
    ghost use Rattle.hole_tree.specs.HoleSet.{HoleSet};

    ghost Value = { HoleSet };

    ghost use Rattle.hole_tree.specs.Kept.{IsKept};

    ghost view = { λ h. record { holes = h.by_start.spans; spare = length h.spare.items } };

    ghost invariant = { IsKept };
}

impl Holes {
    /// No hole, and no room for one.
    pub fn new(alloc: Global) -> Holes
        ensures holes { result.holes ≡ [] }
        ensures spare { result.spare ≡ 0 }
    {
        Holes {
            by_start: Tree::new(),
            by_length: Tree::new(),
            count: 0,
            spare: Vec::new(alloc),
        }
    }

    /// There is room for `n` holes more.
    pub fn is_ready(&self, n: u32) -> bool
        ensures { result ≡ nat_le n self.now.spare }
    {
        n as usize <= self.spare.len()
    }

    /// Makes room for `n` holes more, if there isn't. After a refusal nothing is changed.
    pub fn ready(&mut self, n: u32) -> Result<(), NoMemory>
        ensures holes { self.new.holes ≡ self.old.holes }
        ensures ok { OnOk result (self.new.spare ≡ max self.old.spare n) }
        ensures kept { self.old.spare ≤ self.new.spare }
        ensures err { OnErr result (self.new ≡ self.old) }
    {
        let n = n as usize;
        let had = self.spare.len();
        if n <= had {
            return Ok(());
        }
        let room = self.count.checked_add(n).ok_or(NoMemory)?;
        self.spare.reserve(room)?;
        let Ok(()) = fill(&mut self.spare, n) else {
            self.spare.truncate(had);
            return Err(NoMemory);
        };
        Ok(())
    }

    /// One hole more. It takes no memory.
    pub fn add(&mut self, hole: Span)
        requires spare { 1 ≤ self.old.spare }
        requires whole { hole.start ≤ hole.end }
        requires apart { list_all (is_apart hole) self.old.holes ≡ true }
        ensures holes { self.new.holes ≡ with_hole hole self.old.holes }
        ensures spare { self.new.spare + 1 ≡ self.old.spare }
    {
        // (the room of the spare nodes bounds the number of holes)
        let _room = self.spare.capacity();
        let Some(nodes) = self.spare.pop() else {
            unreachable!()
        };
        let Nodes {
            mut by_start,
            mut by_length,
        } = nodes;
        let hole = Hole::of(hole);
        by_start.hole = hole;
        by_length.hole = hole;
        self.by_start.insert(by_start);
        self.by_length.insert(by_length);
        self.count += 1;
    }

    /// Takes out the hole that begins at a page. It takes no memory.
    pub fn remove(&mut self, start: u32) -> Span
        requires { IsSome (find (starts_at start) self.old.holes) }
        ensures hole { find (starts_at start) self.old.holes ≡ Some result }
        ensures left { self.new.holes ≡ without start self.old.holes }
        ensures spare { self.new.spare ≡ self.old.spare + 1 }
    {
        let begins = Hole::of(Span { start, end: start });
        let by_start = self.by_start.take(&begins).node;
        let hole = by_start.hole;
        let by_length = self.by_length.take(&hole).node;
        self.count -= 1;
        keep(
            &mut self.spare,
            Nodes {
                by_start,
                by_length,
            },
        );
        hole.span()
    }

    /// Moves the ends of a hole, which keeps its place among the others. It takes no memory.
    pub fn resize(&mut self, from: Span, to: Span)
        requires held { find (starts_at from.start) self.old.holes ≡ Some from }
        requires whole { to.start ≤ to.end }
        requires starts { to.start ≤ from.end }
        requires ends { from.start ≤ to.end }
        requires apart { list_all (is_apart to) (without from.start self.old.holes) ≡ true }
        ensures holes { self.new.holes ≡ with_hole to (without from.start self.old.holes) }
        ensures spare { self.new.spare ≡ self.old.spare }
    {
        let (from, to) = (Hole::of(from), Hole::of(to));
        let longer = from.pages().max(to.pages());
        self.by_start.resize(&from, &to, longer);
        let mut node = self.by_length.take(&from).node;
        node.hole = to;
        self.by_length.insert(node);
    }

    /// The hole that has a page.
    pub fn around(&self, page: u32) -> Option<Span>
        ensures { result ≡ find (has_page page) self.now.holes }
    {
        self.by_start.around(page).map(|hole| hole.span())
    }

    /// The holes that touch a span, of whose pages no hole has any.
    pub fn beside(&self, span: Span) -> Neighbours
        requires some { span.start < span.end }
        requires held { list_all (is_disjoint span) self.now.holes ≡ true }
        ensures before { result.before ≡ find (ends_at span.start) self.now.holes }
        ensures behind { result.behind ≡ find (starts_at span.end) self.now.holes }
    {
        let (before, behind) = self.by_start.beside(span.start);
        Neighbours {
            before: before
                .filter(|hole| hole.end() == span.start)
                .map(|hole| hole.span()),
            behind: behind
                .filter(|hole| hole.start() == span.end)
                .map(|hole| hole.span()),
        }
    }

    /// The shortest hole that has `pages` pages at a multiple of `align`, from `first` up to `last`; the lowest among
    /// equals.
    pub fn best(&self, pages: u32, align: u32, first: u32, last: u32) -> Option<Span>
        requires { 1 ≤ align }
        ensures { result ≡ chosen_hole Best self.now.holes pages align first last }
    {
        let request = Request::of(pages, align, first, last);
        self.choose::<Brand>(Mode::Best, request, Blank::new(1))
    }

    /// The lowest such hole.
    pub fn lowest(&self, pages: u32, align: u32, first: u32, last: u32) -> Option<Span>
        requires { 1 ≤ align }
        ensures { result ≡ chosen_hole Low self.now.holes pages align first last }
    {
        let request = Request::of(pages, align, first, last);
        self.choose::<Brand>(Mode::Low, request, Blank::new(1))
    }

    /// The highest such hole.
    pub fn highest(&self, pages: u32, align: u32, first: u32, last: u32) -> Option<Span>
        requires { 1 ≤ align }
        ensures { result ≡ chosen_hole High self.now.holes pages align first last }
    {
        let request = Request::of(pages, align, first, last);
        self.choose::<Brand>(Mode::High, request, Blank::new(1))
    }

    /// How many holes there are.
    pub fn hole_count(&self) -> usize
        ensures { result ≡ length self.now.holes }
    {
        self.count
    }

    /// The pages of the longest hole, or 0 where there is none.
    pub fn longest_hole(&self) -> u32
        ensures { result ≡ longest self.now.holes }
    {
        self.by_start.kept().longest()
    }

    /// The shortest such hole, where a step is a node that is opened.
    pub fn best_counted<L: Ledger>(
        &self,
        pages: u32,
        align: u32,
        first: u32,
        last: u32,
        steps: &mut Steps<L>,
    ) -> Option<Span>
        requires { 1 ≤ align }
        ensures hole { result ≡ chosen_hole Best self.now.holes pages align first last }
        ensures counts { steps.old ≤ steps.new }
        ensures cost { align ≡ 1 → first ≡ 0 → EndsBy last self.now.holes → 2 ^ (steps.new - steps.old) ≤ (length self.now.holes + 1) * (length self.now.holes + 1) }
    {
        // (its levels bound the steps)
        self.by_length.balanced();
        let request = Request::of(pages, align, first, last);
        self.by_length
            .shortest(request, steps)
            .map(|hole| hole.span())
    }

    /// The lowest such hole, where a step is a node that is opened.
    pub fn lowest_counted<L: Ledger>(
        &self,
        pages: u32,
        align: u32,
        first: u32,
        last: u32,
        steps: &mut Steps<L>,
    ) -> Option<Span>
        requires { 1 ≤ align }
        ensures hole { result ≡ chosen_hole Low self.now.holes pages align first last }
        ensures counts { steps.old ≤ steps.new }
        ensures cost { align ≡ 1 → first ≡ 0 → EndsBy last self.now.holes → 2 ^ (steps.new - steps.old) ≤ (length self.now.holes + 1) * (length self.now.holes + 1) }
    {
        // (its levels bound the steps)
        self.by_start.balanced();
        let request = Request::of(pages, align, first, last);
        self.by_start.first(request, steps).map(|hole| hole.span())
    }

    /// The highest such hole, where a step is a node that is opened.
    pub fn highest_counted<L: Ledger>(
        &self,
        pages: u32,
        align: u32,
        first: u32,
        last: u32,
        steps: &mut Steps<L>,
    ) -> Option<Span>
        requires { 1 ≤ align }
        ensures hole { result ≡ chosen_hole High self.now.holes pages align first last }
        ensures counts { steps.old ≤ steps.new }
        ensures cost { align ≡ 1 → first ≡ 0 → EndsBy last self.now.holes → 2 ^ (steps.new - steps.old) ≤ (length self.now.holes + 1) * (length self.now.holes + 1) }
    {
        // (its levels bound the steps)
        self.by_start.balanced();
        let request = Request::of(pages, align, first, last);
        self.by_start
            .highest(request, steps)
            .map(|hole| hole.span())
    }

    /// The hole of the range choice, with a counter of its own.
    #[inline(always)]
    fn choose<L: Ledger>(&self, mode: Mode, request: Request, blank: Blank) -> Option<Span>
        requires align { 1 ≤ request.align }
        requires name { blank.name ≡ L.name }
        requires parts { blank.parts ≡ L.parts }
        requires one_part { blank.parts ≡ 1 }
        ensures { result ≡ chosen_hole mode self.now.holes request.pages request.align request.first request.last }
    {
        let mut steps = Steps::<L>::new(blank);
        let chosen = match mode {
            Mode::Best => self.by_length.shortest(request, &mut steps),
            Mode::Low => self.by_start.first(request, &mut steps),
            Mode::High => self.by_start.highest(request, &mut steps),
        };
        chosen.map(|hole| hole.span())
    }
}

/// Makes nodes until there are those of `n` holes.
fn fill(spare: &mut Vec<Nodes>, n: usize) -> Result<(), NoMemory>
    requires { vec_len spare.old ≤ n }
    ensures ok { OnOk result (vec_len spare.new ≡ n) }
    ensures more { vec_len spare.old ≤ vec_len spare.new }
    ensures at_most { vec_len spare.new ≤ n }
    ensures capacity { vec_capacity spare.old ≤ vec_capacity spare.new }
{
    let alloc = *spare.allocator();
    for _i in spare.len()..n {
        let by_start = Box::new(alloc, Node::blank())?;
        let by_length = Box::new(alloc, Node::blank())?;
        spare.push(Nodes {
            by_start,
            by_length,
        })?;
    }
    Ok(())
}

/// Puts the nodes of a hole back, for which there is room.
fn keep(spare: &mut Vec<Nodes>, nodes: Nodes)
    requires { vec_len spare.old + 1 ≤ vec_capacity spare.old }
    ensures len { vec_len spare.new ≡ vec_len spare.old + 1 }
    ensures capacity { vec_capacity spare.old ≤ vec_capacity spare.new }
{
    match spare.push(nodes) {
        Ok(()) => {}
        Err(_) => unreachable!(),
    }
}
