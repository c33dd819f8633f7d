ghost use Rattle.std.specs.Prelude.{◌≡◌, ℕ, ◌+◌, ◌<◌, ◌^◌, bit_xor, length, min, slice_index};
ghost use Rattle.ttm_base.specs.Pages.{with_bytes};
ghost use Rattle.journal_model.specs.rules.State.{buffer_in};
ghost use Rattle.journal_model.specs.rules.Stores as words;
ghost use Rattle.rules_stores.specs.StorePages.{page_of};
ghost use Rattle.rules_stores.specs.Kept.{BecomesBytes, bytes_of};

use crate::pages::StorePage;
use crate::stores::PlainStores;
use journal_model::Core;
use ttm_base::BufId;
use ttm_base::limits::PAGE_BYTES;

/// The bytes of a page.
const PAGE: usize = PAGE_BYTES as usize;

/// A part of a page: the page, and the offset in bytes at which the part begins.
#[derive(Clone, Copy)]
pub struct PagePart {
    pub page: StorePage,
    pub off: u32,
}

/// Copies `len` bytes from one page to another through `through`, which is as long.
fn copy_through(
    stores: &mut PlainStores,
    through: &mut [u8],
    to: PagePart,
    from: PagePart,
    len: u32,
)
    requires { length through.old ≡ min len 4096 }
    ensures { BecomesBytes stores.old stores.new (with_bytes (bytes_of stores.old) (page_of to.page) to.off len (λ i. bytes_of stores.old (page_of from.page) (from.off + i))) }
{
    stores.read(from.page, from.off, through);
    stores.write(to.page, to.off, through);
}

/// Copies `len` bytes from one page to another.
pub fn copy_part(stores: &mut PlainStores, to: PagePart, from: PagePart, len: u32)
    ensures { BecomesBytes stores.old stores.new (with_bytes (bytes_of stores.old) (page_of to.page) to.off len (λ i. bytes_of stores.old (page_of from.page) (from.off + i))) }
{
    let mut through = [0; PAGE];
    let count = (len as usize).min(PAGE);
    copy_through(stores, &mut through[..count], to, from, len);
}

/// Replaces each of `bytes` with its exclusive or with that of `other`.
fn xor_into(bytes: &mut [u8], other: &[u8])
    requires { length bytes.old ≡ length other.now }
    ensures { (i : ℕ) → i < length bytes.old → slice_index bytes.new i ≡ bit_xor (slice_index bytes.old i) (slice_index other.now i) }
{
    for i in 0..bytes.len() {
        bytes[i] ^= other[i];
    }
}

/// Replaces `len` bytes at `to` with their exclusive or with the bytes at `from`, through `through` and `beside`, which are as long.
fn xor_through(
    stores: &mut PlainStores,
    through: &mut [u8],
    beside: &mut [u8],
    to: PagePart,
    from: PagePart,
    len: u32,
)
    requires through { length through.old ≡ min len 4096 }
    requires beside { length beside.old ≡ min len 4096 }
    ensures { BecomesBytes stores.old stores.new (with_bytes (bytes_of stores.old) (page_of to.page) to.off len (λ i. bit_xor (bytes_of stores.old (page_of to.page) (to.off + i)) (bytes_of stores.old (page_of from.page) (from.off + i)))) }
{
    stores.read(to.page, to.off, through);
    stores.read(from.page, from.off, beside);
    xor_into(through, beside);
    stores.write(to.page, to.off, through);
}

/// Replaces `len` bytes at `to` with their exclusive or with the bytes at `from`.
pub fn xor_part(stores: &mut PlainStores, to: PagePart, from: PagePart, len: u32)
    ensures { BecomesBytes stores.old stores.new (with_bytes (bytes_of stores.old) (page_of to.page) to.off len (λ i. bit_xor (bytes_of stores.old (page_of to.page) (to.off + i)) (bytes_of stores.old (page_of from.page) (from.off + i)))) }
{
    let mut through = [0; PAGE];
    let mut beside = [0; PAGE];
    let count = (len as usize).min(PAGE);
    xor_through(
        stores,
        &mut through[..count],
        &mut beside[..count],
        to,
        from,
        len,
    );
}

/// Writes `bytes` into buffer `b` from offset `off` on, page by page.
pub fn put_bytes(stores: &mut PlainStores, core: &Core, b: BufId, off: usize, bytes: &[u8])
    requires { off + length bytes.now < 2 ^ 44 }
    ensures { BecomesBytes stores.old stores.new (words.put_bytes (buffer_in core.now b) off bytes.now (bytes_of stores.old)) }
{
    let at = off % PAGE;
    let count = bytes.len().min(PAGE - at);
    let page = StorePage::of(core, b, (off / PAGE) as u32);
    stores.write(page, at as u32, &bytes[..count]);
    if count < bytes.len() {
        put_bytes(stores, core, b, off + count, &bytes[count..]);
    }
}
