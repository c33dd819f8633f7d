ghost use Rattle.std.specs.Prelude.{◌≡◌, None};
ghost use Rattle.journal_model.specs.rules.State.{reservation_in};
ghost use Rattle.journal_model.specs.rules.ApplyCommands.{with_holder, released};
ghost use Rattle.bo_table.specs.Seen.{with_reservation};

use bo_table::BoTable;
use ttm_base::{BufId, Stamp};

/// Reserves buffer `b`, which has no holder, for the ticket `stamp`; without a ticket it stays without a holder.
pub fn hold_for(bos: &mut BoTable, b: BufId, stamp: Option<Stamp>)
    requires { (reservation_in bos.old.reservations b).holder ≡ None }
    ensures { bos.new ≡ with_reservation (with_holder stamp) bos.old b }
{
    match stamp {
        Some(stamp) => bos.reserve(b, stamp),
        None => bos.release(b),
    }
}

/// Releases the buffers `bs`, which then have no holder.
pub fn release_all(bos: &mut BoTable, bs: &[BufId])
    ensures { bos.new ≡ record bos.old { reservations = released bos.old.reservations bs.now } }
{
    for b in bs {
        bos.release(*b);
    }
}
