//! What the thread at work has mapped at a line of its script: buffers for the CPU, and the pages of its address space.
ghost use Rattle.std.specs.Prelude.{◌≡◌, ◌+◌, ◌≤◌, OnOk};
ghost use Rattle.journal_model.specs.declared.script.MarkKind.TheVariants as mark;
ghost use Rattle.journal_model.specs.scripts.MarkRules as marks;
ghost use Rattle.journal_model.specs.scripts.MarkRules.{empty_thread_mappings, thread_mappings_after};
ghost use Rattle.gpu_spaces.specs.buffer_set.Members.{is_member};
ghost use Rattle.script_rules.specs.script_mappings.ThreadMappingLists.{IsThreadMappings};

use gpu_spaces::Space;
use gpu_spaces::buffer_set::BufferSet;
use journal_model::VSteps;
use std::alloc::Global;
use std::marker::Model;
use ttm_base::{BufId, NoMemory};

/// What a thread has mapped.
pub struct ThreadMappings {
    mapped: BufferSet,
    space: Space,
}

/// By hand, so that no crate above proves how each part goes.
impl Drop for ThreadMappings {
    fn drop(self) {
        let Self {
            mapped: _,
            space: _,
        } = self;
    }
}

impl Model for ThreadMappings {
    ghost use Rattle.script_rules.specs.script_mappings.ThreadMappingLists.{Seen};

    ghost Value = { Seen };

    ghost view = { λ s. record { mapped = s.mapped; regions = s.space } };
}

impl ThreadMappings {
    /// Returns mappings with nothing mapped.
    pub fn new(alloc: Global) -> ThreadMappings
        ensures { IsThreadMappings result empty_thread_mappings }
    {
        ThreadMappings {
            mapped: BufferSet::new(alloc),
            space: Space::new(alloc),
        }
    }

    /// Returns whether the thread has mapped buffer `b`.
    pub fn has(&self, b: BufId) -> bool
        ensures { result ≡ is_member self.now.mapped b.0 }
    {
        self.mapped.has(b)
    }

    /// Returns the thread's address space.
    pub fn space(&self) -> &Space
        ensures { result.now ≡ self.now.regions }
    {
        &self.space
    }

    /// Maps buffer `b`.
    pub fn map(&mut self, b: BufId) -> Result<(), NoMemory>
        ensures { OnOk result ((d : marks.ThreadMappings) → IsThreadMappings self.old d → IsThreadMappings self.new (thread_mappings_after d (mark.Map b))) }
    {
        self.mapped.add(b)
    }

    /// Unmaps buffer `b`.
    pub fn unmap(&mut self, b: BufId)
        ensures { (d : marks.ThreadMappings) → IsThreadMappings self.old d → IsThreadMappings self.new (thread_mappings_after d (mark.Unmap b)) }
    {
        self.mapped.remove(b);
    }

    /// Maps `n` pages of the space from `va` on to the buffer's pages from `off` on.
    pub fn vmap(
        &mut self,
        alloc: Global,
        va: u32,
        n: u32,
        b: BufId,
        off: u32,
    ) -> Result<(), NoMemory>
        requires some { 1 ≤ n }
        requires inside { va + n ≤ 1048576 }
        requires pages { off + n ≤ 4096 }
        ensures { OnOk result ((d : marks.ThreadMappings) → IsThreadMappings self.old d → IsThreadMappings self.new (thread_mappings_after d (mark.Vmap va n b off))) }
    {
        let mut steps = VSteps::new(alloc);
        self.space.map(va, n, b, off, &mut steps)
    }

    /// Unmaps `n` pages of the space from `va` on.
    pub fn vunmap(&mut self, alloc: Global, va: u32, n: u32) -> Result<(), NoMemory>
        requires some { 1 ≤ n }
        requires inside { va + n ≤ 1048576 }
        ensures { OnOk result ((d : marks.ThreadMappings) → IsThreadMappings self.old d → IsThreadMappings self.new (thread_mappings_after d (mark.Vunmap va n))) }
    {
        let mut steps = VSteps::new(alloc);
        self.space.unmap(va, n, &mut steps)
    }
}
