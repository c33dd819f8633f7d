//! Orders of blocks, whose sizes are powers of two in pages.
ghost use Rattle.std.specs.Prelude.{◌≡◌, ◌<◌, ◌≤◌, ◌^◌};
ghost use Rattle.ttm_base.specs.BuddyChoice as words;

/// Returns the order of the largest block of at most `pages` pages, or 0 for no page.
pub fn log2(pages: u32) -> u32
    ensures value { result ≡ words.log2 pages }
    ensures small { result < 32 }
{
    if pages == 0 { 0 } else { pages.ilog2() }
}

/// Returns the order of the smallest block of at least `pages` pages.
pub fn order_of(pages: u32) -> u32
    ensures value { result ≡ words.order_of pages }
    ensures enough { pages ≤ 2 ^ result }
    ensures small { result ≤ 32 }
{
    if pages <= 1 { 0 } else { log2(pages - 1) + 1 }
}
