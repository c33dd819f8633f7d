ghost use Rattle.std.specs.Prelude.{◌≡◌, ◌+◌, ◌<◌, ◌≤◌, ◌^◌, ℕ, List, length};
ghost use Rattle.ttm_base.specs.declared.BufId.{BufId as Id};
ghost use Rattle.journal_model.specs.declared.script.Command.TheVariants as command_of;
ghost use Rattle.journal_model.specs.rules.Places as places;
ghost use Rattle.copy_packet.specs.StoreBytes.{IsThere};
ghost use Rattle.copy_packet.specs.Spots.{after_write, spot_at};
ghost use Rattle.room_representation.specs.steps.Lent.{as_buffer};
ghost use Rattle.room_jobs.specs.Writes.{CanWrite, HavePages, HasPut, HasWritten};

use bo_table::{Bo, BoTable};
use byte_store::PAGE;
use copy_packet::Stores;
use journal_model::Command;
use state_words::page_at;
use ttm_base::{Loc, Mem};

/// Writes `bytes` to page `page` of the buffer `bo`, from `off` on.
fn put_on_page(stores: &mut Stores, bo: &Bo, page: u32, off: u32, bytes: &[u8])
    requires there { IsThere stores.old (places.page_at (as_buffer bo.now) page) }
    requires inside { off + length bytes.now ≤ PAGE }
    ensures after { stores.new ≡ after_write stores.old (spot_at (places.page_at (as_buffer bo.now) page) off) bytes.now }
    ensures vram { length stores.new.vram ≡ length stores.old.vram }
    ensures frames { length stores.new.frames ≡ length stores.old.frames }
{
    match bo.mem {
        Mem::Vram => {
            let Some(page) = page_at(bo.spans.items(), page) else {
                unreachable!()
            };
            let at = PAGE * page as u64 + off as u64;
            stores.vram.copy_page_part(at, bytes);
        }
        Mem::Tt | Mem::System => {
            let Some(Loc::Frame(frame)) = bo.table.places().get(page as usize) else {
                unreachable!()
            };
            let at = PAGE * *frame as u64 + off as u64;
            stores.frames.copy_page_part(at, bytes);
        }
    }
}

/// Writes `bytes` to the buffer `bo` from `off` on, page by page.
fn put(stores: &mut Stores, bo: &Bo, off: u32, bytes: &[u8])
    requires pages { HavePages stores.old (as_buffer bo.now) (off + length bytes.now) }
    requires short { off + length bytes.now < 2 ^ 32 }
    ensures { HasPut (as_buffer bo.now) off bytes.now stores.old stores.new }
{
    let mut done = 0;
    while done < bytes.len() {
        let at = off as usize + done;
        let room = PAGE as usize - at % PAGE as usize;
        let len = room.min(bytes.len() - done);
        put_on_page(
            stores,
            bo,
            (at / PAGE as usize) as u32,
            (at % PAGE as usize) as u32,
            &bytes[done..done + len],
        );
        done += len;
    }
}

/// Writes the bytes of a write to its buffer. Any other command leaves all bytes as they are.
pub(crate) fn write(stores: &mut Stores, bos: &BoTable, command: &Command)
    requires { (b : Id) (off : ℕ) (bytes : List ℕ) → command.now ≡ command_of.Write b off bytes → CanWrite bos.now stores.old b off bytes }
    ensures { HasWritten bos.now command.now stores.old stores.new }
{
    if let Command::Write { b, off, bytes } = command {
        put(stores, bos.get(*b), *off, bytes.items());
    }
}
