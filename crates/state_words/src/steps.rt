ghost use Rattle.std.specs.Prelude.{◌≡◌};
ghost use Rattle.journal_model.specs.rules.PageSteps as words;
ghost use Rattle.journal_model.specs.rules.State.{new_buffer};

use crate::buffers::target_of;
use journal_model::{Kind, Targets};
use ttm_base::{BufId, JobId, Loc, Mem, Need};

/// Returns the entry of `kind`, unless `job` must be waited for first.
pub fn unless_waiting(job: Option<JobId>, kind: Kind) -> Result<Kind, Need>
    ensures { result ≡ words.unless_waiting job kind }
{
    match job {
        None => Ok(kind),
        Some(job) => Err(Need::Fence(job)),
    }
}

/// Returns the entry that gives page `page` of buffer `b`, which is at `loc`, the frame `frame`: as a fresh page, or as one that comes back
/// from swap.
pub fn filled_by(b: BufId, page: u32, frame: u32, loc: Loc) -> Kind
    ensures { result ≡ words.filled_by b page frame loc }
{
    match loc {
        Loc::Slot(slot) => Kind::SwapIn {
            b,
            page,
            slot,
            frame,
        },
        Loc::Zero | Loc::Frame(_) => Kind::Populate { b, page, frame },
    }
}

/// Returns the memory type of the target among `targets` that is given back next: VRAM, then TT, then SYSTEM.
pub fn target_to_untake(targets: &Targets) -> Mem
    ensures { result ≡ words.target_to_untake (record (new_buffer 0) { targets = targets.now }) }
{
    if target_of(Mem::Vram, targets).is_some() {
        Mem::Vram
    } else if target_of(Mem::Tt, targets).is_some() {
        Mem::Tt
    } else {
        Mem::System
    }
}
