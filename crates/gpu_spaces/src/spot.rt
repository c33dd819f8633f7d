//! The spot of a buffer to which an address is mapped.
ghost use Rattle.std.specs.Prelude.{◌≡◌, ◌+◌, ◌<◌, ◌≤◌, IfSome, option_map};
ghost use Rattle.journal_model.specs.marks.ByName as name;
ghost use Rattle.gpu_spaces.specs.Kept.{regions_in};
ghost use Rattle.gpu_spaces.specs.Regions.{IsKept};
ghost use Rattle.gpu_spaces.specs.Spots.{spot_of};

use crate::mappings::{Mappings, around};
use ttm_base::BufId;
use ttm_base::limits::PAGE_BYTES;

/// The size of a page in bytes.
const PAGE: u64 = PAGE_BYTES as u64;

/// The spot to which an address is mapped: a byte of a buffer, and the number of bytes up to the end of the mapping.
#[derive(Clone, Copy)]
pub(crate) struct Spot {
    pub b: BufId,
    pub off: u32,
    pub room: u64,
}

/// Returns the spot to which an address is mapped, or None where its page isn't mapped.
pub(crate) fn spot_at(mappings: &Mappings, addr: u64) -> Option<Spot>
    requires kept { IsKept (regions_in mappings.now) }
    requires inside { addr < 4294967296 }
    ensures spot { option_map spot_of result ≡ name.spot_at (regions_in mappings.now) addr }
    ensures room { IfSome result (λ s. 1 ≤ s.room) }
    ensures small { IfSome result (λ s. s.off + s.room ≤ 16777216) }
{
    let mapping = around(mappings, (addr / PAGE) as u32)?;
    let first = PAGE * u64::from(mapping.span.start);
    let off = PAGE * u64::from(mapping.off) + (addr - first);
    Some(Spot {
        b: mapping.b,
        off: off as u32,
        room: PAGE * u64::from(mapping.span.end) - addr,
    })
}
