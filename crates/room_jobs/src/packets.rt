ghost use Rattle.std.specs.Prelude.{◌≡◌, IfOk};
ghost use Rattle.ttm_base.specs.Cutting as words;
ghost use Rattle.journal_model.specs.rules.Places as places;
ghost use Rattle.room_jobs.specs.Standing.{body_in, frame_place, standing_names};

use bo_table::{Bo, BoTable};
use op_cutting::{PageNames, cut};
use state_words::{frame_of, name_in_spans};
use std::alloc::Global;
use ttm_base::{BufId, Loc, Mem, NoMemory, Op, Packet, PagePlace};

/// Returns the frame of page `page`, as packets name it.
fn frame_in(places: &[Loc], page: u32) -> PagePlace
    ensures { result ≡ frame_place places.now page }
{
    match places.get(page as usize) {
        Some(loc) => PagePlace::Frame(frame_of(*loc).unwrap_or(0)),
        None => PagePlace::Frame(0),
    }
}

/// Returns how packets name page `page` of the live buffer `bo`.
fn packet_place(bo: &Bo, page: u32) -> PagePlace
    ensures { result ≡ places.packet_place (body_in bo.now) page }
{
    match bo.mem {
        Mem::Vram | Mem::Tt => name_in_spans(bo.mem, bo.spans.items(), page),
        Mem::System => frame_in(bo.table.places(), page),
    }
}

/// The names of pages, by where the buffers of a table stand.
#[derive(Drop)]
struct Standing<'a> {
    bos: &'a BoTable,
}

impl PageNames for Standing<'_> {
    ghost use Rattle.room_jobs.specs.Standing.{standing_names};

    ghost names = { λ s. standing_names s.bos.now };

    fn name_of(&self, b: BufId, page: u32) -> PagePlace {
        if b.0 as usize >= self.bos.len() {
            return PagePlace::Frame(0);
        }
        let bo = self.bos.get(b);
        if !bo.alive {
            return PagePlace::Frame(0);
        }
        packet_place(bo, page)
    }
}

/// Returns the packets of `ops`, in order, cut at every page border of their buffers, as the buffers stand.
pub(crate) fn packets_of(alloc: Global, bos: &BoTable, ops: &[Op]) -> Result<Vec<Packet>, NoMemory>
    ensures { IfOk result (λ packets. packets.items ≡ words.packets_of (standing_names bos.now) ops.now) }
{
    let mut packets = Vec::new(alloc);
    cut(&mut packets, &Standing { bos }, ops)?;
    Ok(packets)
}
