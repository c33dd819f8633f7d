ghost use Rattle.std.specs.Prelude.{◌≡◌, ◌*◌, length};

use super::difference::{Stop, agree_on};
use journal_model::Sizes;
use room_representation::Parts;
use rules_stores::{PlainStores, StorePage};

/// The bytes of a page.
const PAGE: u64 = 4096;

/// Compares the `bytes` of a page with those that `stores` have on it. `what` and `number` name a difference.
fn compare_page(
    stores: &PlainStores,
    page: StorePage,
    bytes: &[u8],
    what: &'static str,
    number: u32,
) -> Result<(), Stop> {
    let mut wanted = [0; PAGE as usize];
    stores.read(page, 0, &mut wanted);
    agree_on(bytes == wanted.as_slice(), what, u64::from(number))
}

/// Compares the bytes of each page of VRAM, each frame, and each slot, held or free, with those of `stores`.
pub fn compare_stores(parts: &Parts, sizes: Sizes, stores: &PlainStores) -> Result<(), Stop>
    requires vram { length parts.now.stores.vram ≡ 4096 * sizes.vram }
    requires frames { length parts.now.stores.frames ≡ 4096 * sizes.frames }
    requires slots { length parts.now.swap.held ≡ sizes.swap }
{
    let mut found = Ok(());
    for n in 0..sizes.vram {
        let bytes = parts.stores.vram.part(PAGE * n as u64, PAGE);
        let page = StorePage::Vram(n);
        found = found.and(compare_page(stores, page, bytes, "other bytes on page of VRAM ", n));
    }
    for n in 0..sizes.frames {
        let bytes = parts.stores.frames.part(PAGE * n as u64, PAGE);
        let page = StorePage::Frame(n);
        found = found.and(compare_page(stores, page, bytes, "other bytes in frame ", n));
    }
    for n in 0..sizes.swap {
        let bytes = parts.swap.page(n);
        let page = StorePage::Slot(n);
        found = found.and(compare_page(stores, page, bytes, "other bytes in slot ", n));
    }
    found
}
