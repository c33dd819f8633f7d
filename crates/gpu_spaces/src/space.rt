ghost use Rattle.std.specs.Prelude.{◌≡◌, ◌+◌, ◌≤◌, [], true, IfOk, IfSome, IfNone, IsTrue, OnOk, OnErr, filter, length, min, map, option_map};
ghost use Rattle.std.specs.List.{list_all};
ghost use Rattle.journal_model.specs.declared.script.MarkKind.TheVariants as mark;
ghost use Rattle.journal_model.specs.marks.ByName.{parts_of_range, job_by_name};
ghost use Rattle.journal_model.specs.scripts.MarkRules.{has_apart_ranges};
ghost use Rattle.gpu_spaces.specs.Inside.{is_inside};
ghost use Rattle.gpu_spaces.specs.Spots.{part_of};
ghost use Rattle.gpu_spaces.specs.Meaning.{parts_shown, range_shown, IsMappedRange, LacksPage};
ghost use Rattle.journal_model.specs.rules.PlainMemory.{Memory};
ghost use Rattle.journal_model.specs.marks.Spaces.{regions_after, regions_space, steps_of, after_request, are_disjoint, is_remap};
ghost use Rattle.law_legal.specs.law_addresses.Addressed.{MeansAddresses};

use crate::apart::is_apart;
use crate::change::change;
use crate::job::{job_len, job_of};
use crate::mappings::{Mapping, Mappings, around};
use crate::pieces::{Pieces, pieces_of};
use crate::steps::list_steps;
use journal_model::{Ops, VOp, VSteps};
use std::alloc::Global;
use std::collections::BTreeMap;
use std::marker::Model;
use ttm_base::limits::SPACE_PAGES;
use ttm_base::{BufId, NoMemory, Span};

/// The address space of a thread: its mappings, in rising order, of which no two have a page in common.
pub struct Space {
    mappings: Mappings,
    alloc: Global,
}

/// Names each part, so that no crate above proves how they are dropped.
impl Drop for Space {
    fn drop(self) {
        let Self {
            mappings: _,
            alloc: _,
        } = self;
    }
}

impl Model for Space {
    ghost use Rattle.std.specs.Prelude.{List};
    ghost use Rattle.journal_model.specs.marks.Spaces.{Region};
    ghost use Rattle.gpu_spaces.specs.Kept.{regions_in};
    ghost use Rattle.gpu_spaces.specs.Regions.{IsKept};

    ghost Value = { List Region };

    ghost view = { λ s. regions_in s.mappings };

    ghost invariant = { λ s. IsKept (regions_in s.mappings) };
}

impl Space {
    /// Returns a space in which nothing is mapped.
    pub fn new(alloc: Global) -> Space
        ensures { result ≡ [] }
    {
        Space {
            mappings: BTreeMap::new(alloc),
            alloc,
        }
    }

    /// Maps the `n` pages from page `va` on to the pages of the buffer `b` from page `off` on, and puts into `steps` how the
    /// mappings that they meet change (drm_gpuvm_sm_map). After `NoMemory` nothing is changed.
    pub fn map(
        &mut self,
        va: u32,
        n: u32,
        b: BufId,
        off: u32,
        steps: &mut VSteps,
    ) -> Result<(), NoMemory>
        requires some { 1 ≤ n }
        requires inside { va + n ≤ SPACE_PAGES }
        requires pages { off + n ≤ 4096 }
        requires no_steps { steps.old ≡ [] }
        ensures mappings { OnOk result (self.new ≡ regions_after self.old (mark.Vmap va n b off)) }
        ensures pages { OnOk result (regions_space self.new ≡ after_request (regions_space self.old) (mark.Vmap va n b off)) }
        ensures disjoint { IsTrue (are_disjoint self.new) }
        ensures steps { OnOk result (steps.new ≡ steps_of self.old (mark.Vmap va n b off)) }
        ensures few_remaps { length (filter is_remap steps.new) ≤ 2 }
        ensures mappings_stay { OnErr result (self.new ≡ self.old) }
        ensures no_steps { OnErr result (steps.new ≡ []) }
    {
        let span = Span {
            start: va,
            end: va + n,
        };
        self.request(span, Some(Mapping { span, b, off }), steps)
    }

    /// Unmaps the `n` pages from page `va` on, and puts into `steps` how the mappings that they meet change
    /// (drm_gpuvm_sm_unmap). After `NoMemory` nothing is changed.
    pub fn unmap(&mut self, va: u32, n: u32, steps: &mut VSteps) -> Result<(), NoMemory>
        requires some { 1 ≤ n }
        requires inside { va + n ≤ SPACE_PAGES }
        requires no_steps { steps.old ≡ [] }
        ensures mappings { OnOk result (self.new ≡ regions_after self.old (mark.Vunmap va n)) }
        ensures pages { OnOk result (regions_space self.new ≡ after_request (regions_space self.old) (mark.Vunmap va n)) }
        ensures disjoint { IsTrue (are_disjoint self.new) }
        ensures steps { OnOk result (steps.new ≡ steps_of self.old (mark.Vunmap va n)) }
        ensures few_remaps { length (filter is_remap steps.new) ≤ 2 }
        ensures mappings_stay { OnErr result (self.new ≡ self.old) }
        ensures no_steps { OnErr result (steps.new ≡ []) }
    {
        let span = Span {
            start: va,
            end: va + n,
        };
        self.request(span, None, steps)
    }

    /// Returns the buffer and its page to which `page` is mapped, or None where `page` isn't mapped.
    pub fn at(&self, page: u32) -> Option<(BufId, u32)>
        ensures { result ≡ regions_space self.now page }
    {
        match around(&self.mappings, page) {
            Some(mapping) => Some((mapping.b, mapping.off + (page - mapping.span.start))),
            None => None,
        }
    }

    /// Cuts the `len` bytes from address `addr` on at each border of a mapping, and returns their parts in rising order, or
    /// None where one of their pages isn't mapped.
    pub fn pieces(&self, alloc: Global, addr: u64, len: u32) -> Result<Option<Pieces>, NoMemory>
        requires { addr + len ≤ 4294967296 }
        ensures parts { IfOk result (λ pieces. option_map (map part_of) pieces ≡ parts_of_range self.now addr len) }
        ensures bytes { IfOk result (λ o. IfSome o (λ pieces. (memory : Memory) → parts_shown memory (map part_of pieces) ≡ range_shown (regions_space self.now) memory addr len)) }
        ensures mapped { IfOk result (λ o. IfSome o (λ pieces. IsMappedRange (regions_space self.now) addr len)) }
        ensures unmapped { IfOk result (λ o. IfNone o (LacksPage (regions_space self.now) addr len)) }
    {
        pieces_of(alloc, &self.mappings, addr, len)
    }

    /// Cuts each of `ops`, in rising order of addresses, at the borders of mappings, and returns the job by name, or None
    /// where a page isn't mapped. The job means what `ops` mean through the space, where no buffer is in both ranges of one
    /// of them.
    pub fn job(&self, alloc: Global, ops: &[VOp]) -> Result<Option<Ops>, NoMemory>
        requires { list_all is_inside ops.now ≡ true }
        ensures job { IfOk result (λ job. job ≡ job_by_name self.now ops.now) }
        ensures means { IfOk result (λ o. IfSome o (λ job. list_all (has_apart_ranges self.now) ops.now ≡ true → MeansAddresses (regions_space self.now) ops.now job)) }
    {
        job_of(alloc, &self.mappings, ops)
    }

    /// Counts the operations of the job that `job` returns, up to `most`, or returns None where a page isn't mapped.
    pub fn job_len(&self, ops: &[VOp], most: u32) -> Option<u32>
        requires { list_all is_inside ops.now ≡ true }
        ensures { result ≡ option_map (λ job. min (length job) most) (job_by_name self.now ops.now) }
    {
        job_len(self.alloc, &self.mappings, ops, most)
    }

    /// Returns whether no buffer is in both ranges of `op`, as far as their pages are mapped.
    pub fn is_apart(&self, alloc: Global, op: VOp) -> Result<bool, NoMemory>
        requires { is_inside op ≡ true }
        ensures { IfOk result (λ apart. apart ≡ has_apart_ranges self.now op) }
    {
        is_apart(alloc, &self.mappings, op)
    }
}

impl Space {
    ghost use Rattle.std.specs.Prelude.{◌≡◌, ◌+◌, ◌-◌, ◌<◌, ◌≤◌, ◌++◌, [], IfSome, OnOk, OnErr, map, filter, option_map, option_to_list};
    ghost use Rattle.journal_model.specs.marks.Spaces.{does_meet, step_at, map_step};
    ghost use Rattle.law_legal.specs.law_spaces.Rising.{IsRising};
    ghost use Rattle.law_legal.specs.law_spaces.Sides.{sides};
    ghost use Rattle.gpu_spaces.specs.Kept.{region_of};

    /// Puts the steps of a request for `range` into `steps`, and gives the pages of the range to the mapping `new`, or
    /// unmaps them.
    fn request(
        &mut self,
        range: Span,
        new: Option<Mapping>,
        steps: &mut VSteps,
    ) -> Result<(), NoMemory>
        requires some { range.start < range.end }
        requires inside { range.end ≤ 1048576 }
        requires new { IfSome new (λ m. m.span ≡ range) }
        requires pages { IfSome new (λ m. m.off + (m.span.end - m.span.start) ≤ 4096) }
        requires no_steps { steps.old ≡ [] }
        ensures rising { IsRising self.old }
        ensures rising_now { IsRising self.new }
        ensures mappings { OnOk result (self.new ≡ sides range (option_to_list (option_map region_of new)) self.old) }
        ensures steps { OnOk result (steps.new ≡ map (step_at range) (filter (does_meet range) self.old) ++ map map_step (option_to_list (option_map region_of new))) }
        ensures mappings_stay { OnErr result (self.new ≡ self.old) }
        ensures no_steps { OnErr result (steps.new ≡ []) }
    {
        list_steps(&self.mappings, range, new, steps)?;
        if let Err(wanted) = change(&mut self.mappings, range, new) {
            steps.clear();
            return Err(wanted);
        }
        Ok(())
    }
}
