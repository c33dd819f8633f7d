ghost use Rattle.std.specs.Prelude.{◌≡◌};
ghost use Rattle.journal_model.specs.declared.state.Buffer.{Buffer as Body};
ghost use Rattle.journal_model.specs.rules.Dry as dry;
ghost use Rattle.journal_model.specs.rules.Ready as ready;
ghost use Rattle.journal_model.specs.rules.State as state;
ghost use Rattle.ttm_base.specs.Placement as placement;

use crate::buffers::target_of;
use crate::places::is_frame;
use journal_model::Buffer;
use place_list::places::compatible;
use ttm_base::{FlaggedPlace, Mem};

/// A buffer as it stands, however its state is held.
pub trait Standing {
    /// The buffer.
    ghost body: { Self → Body };

    /// Returns the memory type in which the buffer stands.
    fn mem(&self) -> Mem
        ensures { result ≡ (body self.now).mem };

    /// Returns whether some place of the list accepts the buffer where it stands, in a memory type of `size` pages.
    fn is_accepted(&self, places: &[FlaggedPlace], size: u32) -> bool
        ensures { result ≡ placement.compatible (body self.now).mem (body self.now).spans (record { list = places.now }) size };

    /// Returns whether the buffer has a target in the memory type `mem`.
    fn has_target(&self, mem: Mem) -> bool
        ensures { result ≡ state.has_target mem (body self.now) };

    /// Returns whether some page of the buffer has a frame.
    fn has_frame(&self) -> bool
        ensures { result ≡ dry.has_frame (body self.now) };

    /// Returns whether each page of the buffer has a frame.
    fn has_all_frames(&self) -> bool
        ensures { result ≡ ready.has_all_frames (body self.now) };
}

impl Standing for Buffer {
    ghost body = { λ x. x };

    fn mem(&self) -> Mem {
        self.mem
    }

    fn is_accepted(&self, places: &[FlaggedPlace], size: u32) -> bool {
        compatible(self.mem, self.spans.items(), places, size)
    }

    fn has_target(&self, mem: Mem) -> bool {
        target_of(mem, &self.targets).is_some()
    }

    fn has_frame(&self) -> bool {
        self.table.items().iter().any(|loc| is_frame(*loc))
    }

    fn has_all_frames(&self) -> bool {
        self.table.items().iter().all(|loc| is_frame(*loc))
    }
}
