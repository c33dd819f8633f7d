ghost use Rattle.std.specs.Prelude.{◌≡◌, ◌+◌, IfOk, Some, option_copied};
ghost use Rattle.ttm_base.specs.Pages.{read_bytes};
ghost use Rattle.ttm_base.specs.Packets.{probe_piece};
ghost use Rattle.rules_stores.specs.StorePages.{page_of};
ghost use Rattle.journal_model.specs.rules.Places.{aperture};
ghost use Rattle.journal_model.specs.rules.State.{buffer_in};
ghost use Rattle.journal_model.specs.rules.Commands.{command_at_work};
ghost use Rattle.journal_model.specs.rules.Stores as words;
ghost use Rattle.rules_stores.specs.Kept.{bytes_of};

use crate::entries::job_packet;
use crate::pages::StorePage;
use crate::stores::PlainStores;
use journal_model::{Bytes, Command, Core, Kind, Script, Shown, State};
use rules_state::command_at_work;
use rules_state::parts::actors::{engine_of, thread_of};
use std::alloc::Global;
use ttm_base::limits::PAGE_BYTES;
use ttm_base::{Actor, BufId, JobId, NoMemory, Packet};

/// The bytes of a page.
const PAGE: u64 = PAGE_BYTES as u64;

/// Returns the byte of buffer `b` at `i` bytes after `off`.
fn buffer_byte(stores: &PlainStores, core: &Core, b: BufId, off: u32, i: u32) -> u8
    ensures { result ≡ words.byte_of (bytes_of stores.now) (buffer_in core.now b) (off + i) }
{
    let at = off as u64 + i as u64;
    let page = StorePage::of(core, b, (at / PAGE) as u32);
    stores.byte(page, (at % PAGE) as u32)
}

/// Returns `len` bytes of buffer `b` from `off` on.
fn buffer_bytes(
    alloc: Global,
    stores: &PlainStores,
    core: &Core,
    b: BufId,
    off: u32,
    len: u32,
) -> Result<Bytes, NoMemory>
    ensures { IfOk result (λ bytes. bytes ≡ words.bytes_of (bytes_of stores.now) (buffer_in core.now b) off len) }
{
    let mut bytes = Bytes::new(alloc);
    for i in 0..len {
        bytes.push(buffer_byte(stores, core, b, off, i))?;
    }
    Ok(bytes)
}

/// Returns the byte of `page` at `i` bytes after `off`, 0 where that offset is past 32 bits.
fn page_byte(stores: &PlainStores, page: StorePage, off: u32, i: u32) -> u8
    ensures { result ≡ bytes_of stores.now (page_of page) (off + i) }
{
    match off.checked_add(i) {
        Some(at) => stores.byte(page, at),
        None => 0,
    }
}

/// Returns `len` bytes of `page` from `off` on.
fn page_bytes(
    alloc: Global,
    stores: &PlainStores,
    page: StorePage,
    off: u32,
    len: u32,
) -> Result<Bytes, NoMemory>
    ensures { IfOk result (λ bytes. bytes ≡ read_bytes (bytes_of stores.now) (page_of page) off len) }
{
    let mut bytes = Bytes::new(alloc);
    for i in 0..len {
        bytes.push(page_byte(stores, page, off, i))?;
    }
    Ok(bytes)
}

/// Returns what a read shows: the bytes that stand at the buffer's places. Any other command shows none.
fn read(
    alloc: Global,
    stores: &PlainStores,
    state: &State,
    command: Option<&Command>,
) -> Result<Bytes, NoMemory>
    ensures { IfOk result (λ bytes. bytes ≡ words.shown_by_read (bytes_of stores.now) state.now (option_copied command.entry)) }
{
    match command {
        Some(Command::Read { b, off, len }) => {
            buffer_bytes(alloc, stores, &state.core, *b, *off, *len)
        }
        _ => Ok(Bytes::new(alloc)),
    }
}

/// Returns what `packet` shows: the bytes at which a probe looks. Any other packet shows none.
fn piece(
    alloc: Global,
    stores: &PlainStores,
    core: &Core,
    packet: Packet,
) -> Result<Bytes, NoMemory>
    ensures { IfOk result (λ bytes. bytes ≡ probe_piece (aperture core.now) (bytes_of stores.now) packet) }
{
    match packet {
        Packet::Probe { from, off, len } => {
            page_bytes(alloc, stores, StorePage::named(core, from), off, len)
        }
        Packet::Fill { .. } | Packet::Copy { .. } | Packet::Xor { .. } => Ok(Bytes::new(alloc)),
    }
}

/// Returns the result `shown` with the bytes that it shows, those of a read.
fn shown_result(
    alloc: Global,
    stores: &PlainStores,
    state: &State,
    command: Option<&Command>,
    shown: Shown,
) -> Result<Shown, NoMemory>
    ensures { IfOk result (λ new. new ≡ words.shown_result (bytes_of stores.now) state.now (option_copied command.entry) shown) }
{
    match shown {
        Shown::Read(_) => Ok(Shown::Read(read(alloc, stores, state, command)?)),
        Shown::Plain => Ok(Shown::Plain),
        Shown::Find { mem, spans } => Ok(Shown::Find { mem, spans }),
    }
}

impl PlainStores {
    ghost use Rattle.std.specs.Prelude.{◌≡◌, IfOk};
    ghost use Rattle.journal_model.specs.rules.Stores as words;
    ghost use Rattle.rules_stores.specs.Kept.{bytes_of};

    /// Returns the entry that `who` makes next in `state` with the bytes that it shows: those of a read, or of a probe.
    pub fn showing(
        &self,
        alloc: Global,
        script: &Script,
        state: &State,
        who: Actor,
        kind: Kind,
    ) -> Result<Kind, NoMemory>
        ensures { IfOk result (λ new. new ≡ words.showing script.now (bytes_of self.now) state.now who kind) }
    {
        match kind {
            Kind::Result { shown } => {
                let command = command_at_work(script, state, thread_of(who));
                let shown = shown_result(alloc, self, state, command, shown)?;
                Ok(Kind::Result { shown })
            }
            Kind::Packet { num, k, .. } => {
                let id = JobId {
                    ctx: engine_of(who),
                    num,
                };
                let packet = job_packet(&state.core, id, k);
                let piece = piece(alloc, self, &state.core, packet)?;
                Ok(Kind::Packet { num, k, piece })
            }
            other => Ok(other),
        }
    }
}
