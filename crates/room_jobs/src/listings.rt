ghost use Rattle.std.specs.Prelude.{◌≡◌, OnOk, OnErr, filter};
ghost use Rattle.ttm_base.specs.declared.BufId.{BufId as Id};
ghost use Rattle.journal_model.specs.declared.script.Command.TheVariants as command_of;
ghost use Rattle.journal_model.specs.rules.State as words;
ghost use Rattle.journal_model.specs.rules.Commands as commands;
ghost use Rattle.room_jobs.specs.Listings.{unlisted, unpinned, CanRelist, AreTouched, AreRelisted};

use bo_table::BoTable;
use journal_model::{Command, Script};
use lru_bulk::Lru;
use room_representation::steps::touch;
use state_words::has_buffer;
use ttm_base::{BufId, NoMemory};

/// Takes buffer `b` off its list, if it is on one.
fn unlist(lru: &mut Lru, b: BufId)
    ensures { lru.new ≡ unlisted lru.old b }
{
    if lru.is_listed(b) {
        lru.remove(b);
    }
}

/// Puts buffer `b` on its list if its last pin goes.
fn list_unpinned(lru: &mut Lru, bos: &BoTable, script: &Script, b: BufId) -> Result<(), NoMemory>
    requires { CanRelist script.now bos.now lru.old b }
    ensures ok { OnOk result (lru.new ≡ unpinned script.now bos.now lru.old b) }
    ensures err { OnErr result (lru.new ≡ lru.old) }
{
    let bo = bos.get(b);
    if bo.pins != 1 {
        return Ok(());
    }
    let decl = script.buffers.get(b.0 as usize);
    lru.add(b, bo.mem, decl.prio, decl.group)
}

/// Makes those of the buffers `bs` that are in `held` count as just used, one after another.
fn touch_held(lru: &mut Lru, held: &[BufId], bs: &[BufId])
    ensures { AreTouched (filter (words.has_buffer held.now) bs.now) lru.old lru.new }
{
    for b in bs {
        if has_buffer(held, *b) {
            lru.members_stand_once();
            touch(lru, *b);
        }
    }
}

/// Changes the lists as the answer of `command` asks: the buffer of a pin leaves its list, that of an unpin is put on one once no pin is left, and
/// the named buffers of any other command that are held count as just used.
pub(crate) fn relist(
    lru: &mut Lru,
    bos: &BoTable,
    script: &Script,
    command: &Command,
    held: &[BufId],
    named: &[BufId],
) -> Result<(), NoMemory>
    requires named { named.now ≡ commands.named command.now }
    requires can { (b : Id) → command.now ≡ command_of.Unpin b → CanRelist script.now bos.now lru.old b }
    ensures ok { OnOk result (AreRelisted script.now bos.now held.now command.now lru.old lru.new) }
    ensures err { OnErr result (lru.new ≡ lru.old) }
{
    match command {
        Command::Pin { b } => unlist(lru, *b),
        Command::Unpin { b } => list_unpinned(lru, bos, script, *b)?,
        _ => touch_held(lru, held, named),
    }
    Ok(())
}
