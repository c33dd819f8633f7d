ghost use Rattle.std.specs.Prelude.{◌≡◌, ◌*◌, length};

use aperture_table::Aperture;
use byte_store::ByteStore;
use copy_packet::Stores;
use std::alloc::Global;
use std::process::Abort;

/// Makes stores of `vram` pages of VRAM and `frames` frames, and an aperture of `aper` pages.
pub fn stores(rt: &impl Abort, alloc: Global, vram: u32, frames: u32, aper: u32) -> Stores
    ensures vram { length result.vram ≡ 4096 * vram }
    ensures frames { length result.frames ≡ 4096 * frames }
    ensures aper { length result.aper ≡ aper }
{
    Stores {
        vram: ByteStore::new(alloc, vram).expect(rt, "pages"),
        frames: ByteStore::new(alloc, frames).expect(rt, "frames"),
        aper: Aperture::new(alloc, aper).expect(rt, "an aperture"),
    }
}
