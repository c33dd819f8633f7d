ghost use Rattle.std.specs.Prelude.{◌≡◌, ◌+◌, ◌<◌, ◌≤◌, ◌++◌, length, map};
ghost use Rattle.ttm_base.specs.ListWords.{count_from};
ghost use Rattle.copy_packet.specs.StoreBytes.{byte_at, HasPage};
ghost use Rattle.journal_model.specs.rules.State.{buffer};
ghost use Rattle.journal_model.specs.rules.Stores as words;
ghost use Rattle.journal_model.specs.rules.Legal.{state_of, stores_of, world_of};
ghost use Rattle.laws.specs.lemma_bytes_told.Told.{IsThere};
ghost use Rattle.room_representation.specs.Held.{AreHeld};
ghost use Rattle.room_queries.specs.Heads.{head_piece};
ghost use Rattle.room_queries.specs.Bytes as seen;
ghost use Rattle.room_queries.specs.Bytes.{bytes_in, standing, HasPart};

use bo_table::Bo;
use byte_store::{ByteStore, PAGE};
use copy_packet::{ProbeBytes, show};
use journal_model::{Entry, Script};
use room_representation::Parts;
use state_words::page_at;
use swap_store::SwapStore;
use ttm_base::{BufId, Loc, Mem};

/// The size of a page in bytes.
const PAGE_LEN: u32 = 4096;

/// The place of the bytes of a buffer's page. A page that is nowhere is zeros.
enum Standing {
    Nowhere,
    Vram(u32),
    Frame(u32),
    Slot(u32),
}

/// Returns where page `page` of the live buffer `bo` stands: by its spans in VRAM, else by its table.
fn standing_of(bo: &Bo, page: u32) -> Standing
    ensures { seen.page_of result ≡ seen.page_of_bo bo.now page }
{
    if let Mem::Vram = bo.mem {
        return match page_at(bo.spans.items(), page) {
            Some(found) => Standing::Vram(found),
            None => Standing::Nowhere,
        };
    }
    match bo.table.places().get(page as usize) {
        Some(Loc::Frame(frame)) => Standing::Frame(*frame),
        Some(Loc::Slot(slot)) => Standing::Slot(*slot),
        Some(Loc::Zero) | None => Standing::Nowhere,
    }
}

/// Appends `len` zeros to `out`.
#[tactic(auto, using(crate::proofs::Read::zeros_more))]
fn push_zeros(out: &mut ProbeBytes, len: u32)
    requires { length out.old + len ≤ 256 }
    ensures { out.new ≡ out.old ++ seen.zeros len }
{
    for _i in 0..len {
        out.extend(&[0]);
    }
}

/// Appends `len` bytes of page `page` of a store to `out`, from `off` on.
fn push_stored(out: &mut ProbeBytes, store: &ByteStore, page: u32, off: u32, len: u32)
    requires page { HasPage store.now page }
    requires fits { off + len ≤ 4096 }
    requires room { length out.old + len ≤ 256 }
    ensures { out.new ≡ out.old ++ map (byte_at store.now page) (count_from 1 len off) }
{
    let bytes = store.part(PAGE * page as u64 + off as u64, len as u64);
    out.extend(bytes)
}

/// Appends `len` bytes of a slot to `out`, from `off` on.
fn push_slot(out: &mut ProbeBytes, swap: &SwapStore, slot: u32, off: u32, len: u32)
    requires slot { slot < length swap.now.held }
    requires fits { off + len ≤ 4096 }
    requires room { length out.old + len ≤ 256 }
    ensures { out.new ≡ out.old ++ map (byte_at swap.now.bytes slot) (count_from 1 len off) }
{
    let page = swap.page(slot);
    let start = off as usize;
    let end = start + len as usize;
    out.extend(&page[start..end])
}

/// Appends `len` bytes of page `page` of the buffer `bo` to `out`, from `off` on, out of the store where the page stands.
fn push_part(out: &mut ProbeBytes, parts: &Parts, bo: &Bo, page: u32, off: u32, len: u32)
    requires there { HasPart parts.now (seen.page_of_bo bo.now page) }
    requires fits { off + len ≤ 4096 }
    requires room { length out.old + len ≤ 256 }
    ensures { out.new ≡ out.old ++ bytes_in parts.now (seen.page_of_bo bo.now page) off len }
{
    match standing_of(bo, page) {
        Standing::Nowhere => push_zeros(out, len),
        Standing::Vram(page) => push_stored(out, &parts.stores.vram, page, off, len),
        Standing::Frame(frame) => push_stored(out, &parts.stores.frames, frame, off, len),
        Standing::Slot(slot) => push_slot(out, &parts.swap, slot, off, len),
    }
}

/// Writes `len` bytes of the live buffer `b` from `off` on to `out`, at most 256: those that the stores and slots have at its places. They lie on
/// two pages at most. Takes no memory, and time by the bytes and by the buffer's spans.
pub fn shown(
    parts: &Parts,
    script: &Script,
    before: &[Entry],
    b: BufId,
    off: u32,
    len: u32,
    out: &mut ProbeBytes,
)
    requires held { AreHeld script.now before.now parts.now }
    requires live { IsThere (state_of script.now before.now) b }
    requires short { len ≤ 256 }
    ensures { out.new ≡ words.bytes_of (stores_of script.now before.now) (buffer (state_of script.now before.now) b) off len }
{
    let bo = parts.bos.get(b);
    let page = off / PAGE_LEN;
    let start = off % PAGE_LEN;
    let first = len.min(PAGE_LEN - start);
    out.set(&[]);
    push_part(out, parts, bo, page, start, first);
    push_part(out, parts, bo, page + 1, 0, len - first)
}

/// Writes the bytes that the next packet of the head of context `ctx` shows to `out`: none if the packet isn't a probe, or where no packet or no job
/// is left. Takes time by the bytes.
pub fn probe(parts: &Parts, script: &Script, before: &[Entry], ctx: u32, out: &mut ProbeBytes)
    requires held { AreHeld script.now before.now parts.now }
    requires known { ctx ≤ script.now.sizes.engines }
    ensures { out.new ≡ head_piece (world_of script.now before.now) ctx }
{
    if parts.rings.head(ctx).is_none() {
        out.set(&[]);
        return;
    }
    match parts.rings.next_packet(ctx) {
        Some(packet) => show(packet, &parts.stores, out),
        None => out.set(&[]),
    }
}
