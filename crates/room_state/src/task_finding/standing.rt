ghost use Rattle.std.specs.Prelude.{◌≡◌, length};
ghost use Rattle.std.specs.Option.{option_copied};
ghost use Rattle.journal_model.specs.rules.State as state;
ghost use Rattle.room_state.specs.task_finding.Seen.{seen, standing, HasReservations};

use bo_table::{Bo, BoTable};
use journal_model::Reservation;
use state_words::{Standing, compatible, target_of};
use ttm_base::{BufId, FlaggedPlace, Mem};

/// A buffer that a table lends, or none, which stands for an empty buffer in SYSTEM. Each call takes constant time, but for the places that it is
/// given.
#[derive(Clone, Copy)]
pub(crate) struct Lent<'a> {
    pub bo: Option<&'a Bo>,
}

impl Standing for Lent<'_> {
    ghost use Rattle.std.specs.Option.{option_copied};
    ghost use Rattle.room_state.specs.task_finding.Seen.{standing};

    ghost body = { λ l. standing (option_copied l.bo) };

    fn mem(&self) -> Mem {
        match self.bo {
            Some(bo) => bo.mem,
            None => Mem::System,
        }
    }

    fn is_accepted(&self, places: &[FlaggedPlace], size: u32) -> bool {
        match self.bo {
            Some(bo) => bo.spans.is_accepted(bo.mem, places, size),
            None => compatible(Mem::System, &[], places, size),
        }
    }

    fn has_target(&self, mem: Mem) -> bool {
        match self.bo {
            Some(bo) => target_of(mem, &bo.targets).is_some(),
            None => false,
        }
    }

    fn has_frame(&self) -> bool {
        match self.bo {
            Some(bo) => bo.table.has_frame(),
            None => false,
        }
    }

    fn has_all_frames(&self) -> bool {
        match self.bo {
            Some(bo) => bo.table.has_all_frames(),
            None => true,
        }
    }
}

/// Returns buffer `b` if it is live.
pub(crate) fn live(bos: &BoTable, b: BufId) -> Lent<'_>
    requires { HasReservations bos.now }
    ensures { standing (option_copied result.bo) ≡ state.buffer (seen bos.now) b }
{
    if b.0 as usize >= bos.len() {
        return Lent { bo: None };
    }
    let bo = bos.get(b);
    if bo.alive {
        Lent { bo: Some(bo) }
    } else {
        Lent { bo: None }
    }
}

/// Returns the pins and the holder of buffer `b`.
pub(crate) fn reservation(bos: &BoTable, b: BufId) -> Reservation
    requires { HasReservations bos.now }
    ensures { result ≡ state.reservation (seen bos.now) b }
{
    if (b.0 as usize) < bos.len() {
        bos.get(b).reservation()
    } else {
        Reservation {
            pins: 0,
            holder: None,
        }
    }
}
