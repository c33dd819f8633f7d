//! Searches. Those for a request open one node on a level, where neither range nor alignment leaves out a hole that is
//! long enough.
ghost use Rattle.std.specs.Prelude.{◌≡◌, ◌+◌, ◌≤◌, option_map};
ghost use Rattle.std.specs.List.{find};
ghost use Rattle.ttm_base.specs.declared.Mode.TheVariants.{Low, High};
ghost use Rattle.hole_tree.specs.HoleSet.{ends_by, ends_past};
ghost use Rattle.hole_tree.specs.Fitting.{fits, is_long, find_last, IsWide};
ghost use Rattle.hole_tree.specs.Rising.{IsRising};
ghost use Rattle.hole_tree.specs.Sorting.{IsSorted};
ghost use Rattle.hole_tree.specs.declared.order.Order.TheVariants as order;

use crate::hole::Hole;
use crate::request::Request;
use crate::sort::{Longest, Side};
use crate::tree::Tree;
use step_count::Steps;
use step_count::ledger::Ledger;
use ttm_base::Mode;

impl<S: Longest> Tree<S> {
    /// The lowest hole that fits. Mostly it is the first that is long enough.
    pub(crate) fn first<L: Ledger>(&self, request: Request, steps: &mut Steps<L>) -> Option<&Hole>
        requires rising { IsRising self.now.spans }
        requires align { 1 ≤ request.align }
        ensures found { option_map (λ hole. hole.now) result ≡ find (fits Low request) self.now.spans }
        ensures counts { steps.old ≤ steps.new }
        ensures cost { IsWide request self.now.spans → steps.new ≤ steps.old + self.now.height }
    {
        if request.pages == 0 {
            return None;
        }
        if request.first > 0 {
            return self.first_of_all(&request, steps);
        }
        let long = self.first_long(request.pages, steps)?;
        if request.fits(Mode::Low, *long) {
            return Some(long);
        }
        self.first_of_all(&request, steps)
    }

    /// The highest hole that fits. Mostly it is the last that is long enough.
    pub(crate) fn highest<L: Ledger>(&self, request: Request, steps: &mut Steps<L>) -> Option<&Hole>
        requires rising { IsRising self.now.spans }
        requires align { 1 ≤ request.align }
        ensures found { option_map (λ hole. hole.now) result ≡ find_last (fits High request) self.now.spans }
        ensures counts { steps.old ≤ steps.new }
        ensures cost { IsWide request self.now.spans → steps.new ≤ steps.old + self.now.height }
    {
        if request.pages == 0 {
            return None;
        }
        let long = self.last_long(request.pages, steps)?;
        if request.fits(Mode::High, *long) {
            return Some(long);
        }
        self.highest_of_all(&request, steps)
    }

    /// The last hole that ends at a page or below it, and the first that ends past it.
    pub(crate) fn beside(&self, page: u32) -> (Option<&Hole>, Option<&Hole>)
        requires rising { IsRising self.now.spans }
        ensures before { option_map (λ hole. hole.now) result.0 ≡ find_last (ends_by page) self.now.spans }
        ensures behind { option_map (λ hole. hole.now) result.1 ≡ find (ends_past page) self.now.spans }
    {
        let mut before = None;
        let mut behind = None;
        let mut tree = self;
        while let Some(node) = tree.root() {
            if node.hole.end() <= page {
                before = Some(&node.hole);
                tree = &node.right;
            } else {
                behind = Some(&node.hole);
                tree = &node.left;
            }
        }
        (before, behind)
    }

    /// The first hole that is so long.
    fn first_long<L: Ledger>(&self, pages: u32, steps: &mut Steps<L>) -> Option<&Hole>
        requires { 1 ≤ pages }
        ensures found { option_map (λ hole. hole.now) result ≡ find (is_long pages) self.now.spans }
        ensures counts { steps.old ≤ steps.new }
        ensures cost { steps.new ≤ steps.old + self.now.height }
    {
        let mut tree = self;
        while let Some(node) = tree.open(steps) {
            if pages <= node.of_left.longest() {
                tree = &node.left;
            } else if pages <= node.hole.pages() {
                return Some(&node.hole);
            } else {
                tree = &node.right;
            }
        }
        None
    }

    /// The last hole that is so long.
    fn last_long<L: Ledger>(&self, pages: u32, steps: &mut Steps<L>) -> Option<&Hole>
        requires { 1 ≤ pages }
        ensures found { option_map (λ hole. hole.now) result ≡ find_last (is_long pages) self.now.spans }
        ensures counts { steps.old ≤ steps.new }
        ensures cost { steps.new ≤ steps.old + self.now.height }
    {
        let mut tree = self;
        while let Some(node) = tree.open(steps) {
            if pages <= node.of_right.longest() {
                tree = &node.right;
            } else if pages <= node.hole.pages() {
                return Some(&node.hole);
            } else {
                tree = &node.left;
            }
        }
        None
    }

    /// The first hole that fits. A side is opened where such a hole may be in it.
    fn first_of_all<L: Ledger>(&self, request: &Request, steps: &mut Steps<L>) -> Option<&Hole>
        requires rising { IsRising self.now.spans }
        requires align { 1 ≤ request.now.align }
        ensures found { option_map (λ hole. hole.now) result ≡ find (fits Low request.now) self.now.spans }
        ensures counts { steps.old ≤ steps.new }
    {
        let node = self.open(steps)?;
        if request.reaches_left(node.of_left.longest(), node.hole) {
            let below = node.left.first_of_all(request, steps);
            if below.is_some() {
                return below;
            }
        }
        if request.fits(Mode::Low, node.hole) {
            return Some(&node.hole);
        }
        if request.reaches_right(node.of_right.longest(), node.hole) {
            return node.right.first_of_all(request, steps);
        }
        None
    }

    /// The highest hole that fits. A side is opened where such a hole may be in it.
    fn highest_of_all<L: Ledger>(&self, request: &Request, steps: &mut Steps<L>) -> Option<&Hole>
        requires rising { IsRising self.now.spans }
        requires align { 1 ≤ request.now.align }
        ensures found { option_map (λ hole. hole.now) result ≡ find_last (fits High request.now) self.now.spans }
        ensures counts { steps.old ≤ steps.new }
    {
        let node = self.open(steps)?;
        if request.reaches_right(node.of_right.longest(), node.hole) {
            let above = node.right.highest_of_all(request, steps);
            if above.is_some() {
                return above;
            }
        }
        if request.fits(Mode::High, node.hole) {
            return Some(&node.hole);
        }
        if request.reaches_left(node.of_left.longest(), node.hole) {
            return node.left.highest_of_all(request, steps);
        }
        None
    }
}

impl<S: Side> Tree<S> {
    /// The shortest hole that fits (Best and Low fit alike). Mostly it is the first that is long enough.
    pub(crate) fn shortest<L: Ledger>(
        &self,
        request: Request,
        steps: &mut Steps<L>,
    ) -> Option<&Hole>
        requires sorted { IsSorted order.ByLength self.now.spans }
        requires align { 1 ≤ request.align }
        ensures found { option_map (λ hole. hole.now) result ≡ find (fits Low request) self.now.spans }
        ensures counts { steps.old ≤ steps.new }
        ensures cost { IsWide request self.now.spans → steps.new ≤ steps.old + self.now.height }
    {
        if request.pages == 0 {
            return None;
        }
        if request.first > 0 {
            return self.shortest_of_all(&request, steps);
        }
        let long = self.shortest_long(request.pages, steps)?;
        if request.fits(Mode::Low, *long) {
            return Some(long);
        }
        self.shortest_of_all(&request, steps)
    }

    /// The shortest hole that is so long.
    fn shortest_long<L: Ledger>(&self, pages: u32, steps: &mut Steps<L>) -> Option<&Hole>
        requires sorted { IsSorted order.ByLength self.now.spans }
        ensures found { option_map (λ hole. hole.now) result ≡ find (is_long pages) self.now.spans }
        ensures counts { steps.old ≤ steps.new }
        ensures cost { steps.new ≤ steps.old + self.now.height }
    {
        // (the root, until there is one that is so long)
        let mut found = self.open(steps)?;
        let mut tree = if found.hole.pages() < pages {
            &found.right
        } else {
            &found.left
        };
        while let Some(node) = tree.open(steps) {
            if node.hole.pages() < pages {
                tree = &node.right;
            } else {
                found = node;
                tree = &node.left;
            }
        }
        if found.hole.pages() < pages {
            return None;
        }
        Some(&found.hole)
    }

    /// The shortest hole that fits, where all are tried that are long enough.
    fn shortest_of_all<L: Ledger>(&self, request: &Request, steps: &mut Steps<L>) -> Option<&Hole>
        requires sorted { IsSorted order.ByLength self.now.spans }
        requires align { 1 ≤ request.now.align }
        ensures found { option_map (λ hole. hole.now) result ≡ find (fits Low request.now) self.now.spans }
        ensures counts { steps.old ≤ steps.new }
    {
        let node = self.open(steps)?;
        if node.hole.pages() < request.pages {
            return node.right.shortest_of_all(request, steps);
        }
        let below = node.left.shortest_of_all(request, steps);
        if below.is_some() {
            return below;
        }
        if request.fits(Mode::Low, node.hole) {
            return Some(&node.hole);
        }
        node.right.shortest_of_all(request, steps)
    }
}
