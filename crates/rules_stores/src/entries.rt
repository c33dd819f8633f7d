ghost use Rattle.std.specs.Prelude.{◌≡◌, ◌↔◌, IsTrue, Some, find, option_copied};
ghost use Rattle.ttm_base.specs.Pages.{translated};
ghost use Rattle.ttm_base.specs.Packets.{after_packet};
ghost use Rattle.rules_stores.specs.StorePages.{page_of};
ghost use Rattle.journal_model.specs.rules.Places.{aperture};
ghost use Rattle.journal_model.specs.rules.Commands.{command_at_work};
ghost use Rattle.journal_model.specs.rules.Waits as waits;
ghost use Rattle.journal_model.specs.rules.Stores as words;
ghost use Rattle.rules_stores.specs.Kept.{BecomesBytes, bytes_of};
ghost use Rattle.rules_stores.specs.Writes.{CanStore, IsShortWrite};

use crate::pages::StorePage;
use crate::parts::{PagePart, copy_part, put_bytes, xor_part};
use crate::stores::PlainStores;
use journal_model::{Command, Core, Entry, Kind, Script, State};
use rules_state::command_at_work;
use rules_state::parts::actors::{engine_of, thread_of};
use ttm_base::limits::PAGE_BYTES;
use ttm_base::{Actor, JobId, Packet, PagePlace};

/// Returns packet `k` of job `id`, or a probe of no bytes if there is no such packet.
pub fn job_packet(core: &Core, id: JobId, k: u32) -> Packet
    ensures { result ≡ words.job_packet core.now id k }
{
    let nothing = Packet::Probe {
        from: PagePlace::Frame(0),
        off: 0,
        len: 0,
    };
    match core.jobs.named(id) {
        Some(job) => match job.packets.items().get(k as usize) {
            Some(packet) => *packet,
            None => nothing,
        },
        None => nothing,
    }
}

/// Returns the part from `off` on of the page that `place` names.
fn part_of(core: &Core, place: PagePlace, off: u32) -> PagePart
    ensures page { page_of result.page ≡ translated (aperture core.now) place }
    ensures off { result.off ≡ off }
{
    PagePart {
        page: StorePage::named(core, place),
        off,
    }
}

/// Runs `packet`, through the aperture of `core`.
fn run_packet(stores: &mut PlainStores, core: &Core, packet: Packet)
    ensures { BecomesBytes stores.old stores.new (after_packet (aperture core.now) (bytes_of stores.old) packet) }
{
    match packet {
        Packet::Fill { to, off, len, byte } => {
            stores.fill(StorePage::named(core, to), off, len, byte)
        }
        Packet::Copy {
            to,
            toff,
            from,
            foff,
            len,
        } => copy_part(
            stores,
            part_of(core, to, toff),
            part_of(core, from, foff),
            len,
        ),
        Packet::Xor {
            to,
            toff,
            from,
            foff,
            len,
        } => xor_part(
            stores,
            part_of(core, to, toff),
            part_of(core, from, foff),
            len,
        ),
        Packet::Probe { .. } => {}
    }
}

/// Writes the bytes of `command` at the places of its buffer, if it is a write.
pub fn put_write(stores: &mut PlainStores, state: &State, command: &Command)
    requires { IsShortWrite (Some command.now) }
    ensures { BecomesBytes stores.old stores.new (words.written state.now (Some command.now) (bytes_of stores.old)) }
{
    if let Command::Write { b, off, bytes } = command {
        put_bytes(stores, &state.core, *b, *off as usize, bytes.items());
    }
}

/// Writes the bytes of the command that `thread` is answered, if it is a write.
fn answer(stores: &mut PlainStores, script: &Script, state: &State, thread: u32)
    requires { IsShortWrite (command_at_work script.now state.now thread) }
    ensures { BecomesBytes stores.old stores.new (words.written state.now (command_at_work script.now state.now thread) (bytes_of stores.old)) }
{
    if let Some(command) = command_at_work(script, state, thread) {
        put_write(stores, state, command);
    }
}

/// Returns the part of `page` that is all of it.
fn whole(page: StorePage) -> PagePart
    ensures { result ≡ record { page = page; off = 0 } }
{
    PagePart { page, off: 0 }
}

impl PlainStores {
    ghost use Rattle.std.specs.Prelude.{◌≡◌, IfOk};
    ghost use Rattle.journal_model.specs.rules.Stores as words;
    ghost use Rattle.rules_stores.specs.Kept.{BecomesBytes, bytes_of};
    ghost use Rattle.rules_stores.specs.Writes.{CanStore};

    /// Makes the bytes those after `entry`, which was made in `state`. It takes no memory.
    pub fn after(&mut self, script: &Script, state: &State, entry: &Entry)
        requires { CanStore script.now state.now entry.now.who entry.now.kind }
        ensures { BecomesBytes self.old self.new (words.stores_after script.now state.now entry.now.who entry.now.kind (bytes_of self.old)) }
    {
        match &entry.kind {
            Kind::Populate { frame, .. } => self.fill(StorePage::Frame(*frame), 0, PAGE_BYTES, 0),
            Kind::SwapIn { slot, frame, .. } => copy_part(
                self,
                whole(StorePage::Frame(*frame)),
                whole(StorePage::Slot(*slot)),
                PAGE_BYTES,
            ),
            Kind::SwapOut { b, page, slot } => copy_part(
                self,
                whole(StorePage::Slot(*slot)),
                whole(StorePage::of(&state.core, *b, *page)),
                PAGE_BYTES,
            ),
            Kind::Packet { num, k, .. } => {
                let id = JobId {
                    ctx: engine_of(entry.who),
                    num: *num,
                };
                run_packet(self, &state.core, job_packet(&state.core, id, *k))
            }
            Kind::Result { .. } => answer(self, script, state, thread_of(entry.who)),
            _ => {}
        }
    }
}

/// Returns whether the bytes of an entry of this `kind` can be stored. Those of each entry can for a script that meets the grammar.
pub fn can_store(script: &Script, state: &State, who: Actor, kind: &Kind) -> bool
    ensures { IsTrue result ↔ CanStore script.now state.now who kind.now }
{
    match kind {
        Kind::Result { .. } => match command_at_work(script, state, thread_of(who)) {
            Some(Command::Write { bytes, .. }) => bytes.len() <= u32::MAX as usize,
            _ => true,
        },
        _ => true,
    }
}
