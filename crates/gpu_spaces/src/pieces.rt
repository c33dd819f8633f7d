//! The parts of a range of addresses, of which each is in one buffer.
ghost use Rattle.std.specs.Prelude.{◌≡◌, ◌+◌, ◌≤◌, IfOk, map, option_map};
ghost use Rattle.journal_model.specs.marks.ByName.{parts_of_range};
ghost use Rattle.gpu_spaces.specs.Kept.{regions_in};
ghost use Rattle.gpu_spaces.specs.Regions.{IsKept};
ghost use Rattle.gpu_spaces.specs.Spots.{part_of};

use crate::mappings::Mappings;
use crate::spot::spot_at;
use std::alloc::Global;
use ttm_base::{BufId, ItemList, NoMemory};

/// Bytes of one buffer to which a range of addresses is mapped side by side.
#[derive(Clone, Copy)]
pub struct Piece {
    pub b: BufId,
    pub off: u32,
    pub len: u32,
}

pub type Pieces = ItemList<Piece>;

/// Returns the parts of a range of addresses, or None where a page isn't mapped.
pub(crate) fn pieces_of(
    alloc: Global,
    mappings: &Mappings,
    addr: u64,
    len: u32,
) -> Result<Option<Pieces>, NoMemory>
    requires kept { IsKept (regions_in mappings.now) }
    requires inside { addr + len ≤ 4294967296 }
    ensures { IfOk result (λ pieces. option_map (map part_of) pieces ≡ parts_of_range (regions_in mappings.now) addr len) }
{
    let mut pieces = Pieces::new(alloc);
    let mut at = 0;
    while at < len {
        let Some(spot) = spot_at(mappings, addr + u64::from(at)) else {
            return Ok(None);
        };
        let n = u64::from(len - at).min(spot.room) as u32;
        pieces.push(Piece {
            b: spot.b,
            off: spot.off,
            len: n,
        })?;
        at += n;
    }
    Ok(Some(pieces))
}
