ghost use Rattle.std.specs.Prelude.{◌≡◌, IfOk};
ghost use Rattle.ttm_base.specs.Cutting as words;
ghost use Rattle.journal_model.specs.rules.State as states;
ghost use Rattle.journal_model.specs.rules.Places as places;

use journal_model::{Core, Packets};
use op_cutting::{PageNames, cut};
use rules_state::{live_in, packet_place};
use std::alloc::Global;
use ttm_base::{BufId, NoMemory, Op, PagePlace};

/// The names of pages as the buffers stand in a state.
#[derive(Drop)]
struct Standing<'a> {
    core: &'a Core,
}

impl PageNames for Standing<'_> {
    ghost names = { λ s b. places.packet_place (states.buffer_in s.core.now b) };

    fn name_of(&self, b: BufId, page: u32) -> PagePlace {
        match live_in(self.core.buffers.items(), b) {
            Some(buffer) => packet_place(buffer, page),
            None => PagePlace::Frame(0),
        }
    }
}

/// Returns the packets of a job, in order: its operations `ops`, cut at every page border of their buffers, as the buffers stand in `core`.
pub fn packets_of(alloc: Global, core: &Core, ops: &[Op]) -> Result<Packets, NoMemory>
    ensures { IfOk result (λ packets. packets ≡ words.packets_of (λ b. places.packet_place (states.buffer_in core.now b)) ops.now) }
{
    let mut packets = Packets::new(alloc);
    cut(&mut packets, &Standing { core }, ops)?;
    Ok(packets)
}
