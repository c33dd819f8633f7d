//! A search for blocks that marks blocks as held only where it can't know otherwise what is left.
ghost use Rattle.std.specs.Prelude.{◌≡◌, ℕ, ◌+◌, ◌-◌, ◌<◌, ◌≤◌, ◌∷◌, ◌++◌, Bool, true, false, List, [], Some, None, IfSome, OnOk, OnErr, length, drop, replicate};
ghost use Rattle.ttm_base.specs.BuddyChoice as words;
ghost use Rattle.block_tree.specs.FreeSet.{is_free};
ghost use Rattle.block_tree.specs.Pieces.{IsPiece};
ghost use Rattle.buddy_manager.specs.Taking.{less, beside, AreTaken, Tells, IsSame};
ghost use Rattle.buddy_manager.specs.Finding.{HasNumbers, IsEven, IsBelow, IsBeyond, HasRoom, IsFinding, IsFound, IsKnown, IsLooked, IsLookedFree, IsMarkedIn, work_of};

use crate::AllocFault;
use crate::choice::free_spans;
use crate::unmarked::{Found, Half, Origin, first_in, is_even, note, rest_of};
use block_tree::{FreeBlocks, block_len};
use ttm_base::{NoMemory, Span, Spans, log2};

/// A bound above the order of any free block, since there are fewer than 2^31 pages.
const ORDERS: usize = 32;

/// The outcome of a look for the next block.
#[derive(Clone, Copy)]
pub enum Looked {
    Block(Found),
    Nowhere,
    /// What is left can't be known before the blocks that were found are marked.
    Unknown,
}

/// The state of a search.
#[derive(Clone, Copy)]
pub struct Search {
    /// The number of pages that are left to find.
    pub left: u32,
    /// The order up to which blocks are looked for: each block of a greater order is too large, or there is none.
    pub order: u32,
    /// For each order the part of the range in which free blocks of that order are left.
    pub rests: [Span; ORDERS],
    /// The half that is left of the block that was split last.
    pub half: Option<Half>,
    /// The number of blocks at the front that are marked as held.
    pub marked: usize,
}

/// Returns whether an order is below that of the half that is left, or no half is left.
fn is_below(order: u32, half: Option<Half>) -> bool
    ensures below { result ≡ true → IsBelow order half }
{
    match half {
        Some(half) => order < half.order,
        None => true,
    }
}

/// Returns whether an order is above that of the half that is left.
fn is_beyond(order: u32, half: Option<Half>) -> bool
    ensures beyond { result ≡ true → IsBeyond order half }
{
    match half {
        Some(half) => half.order < order,
        None => false,
    }
}

/// Returns true only if no block of the order `order` lies across an end of a range.
fn has_even_ends(range: Span, order: u32, size: u32) -> bool
    requires { order ≤ 31 }
    ensures start { result ≡ true → IsEven false range size order }
    ensures end { result ≡ true → IsEven true range size order }
{
    is_even(range, false, order, size) && is_even(range, true, order, size)
}

/// Returns a free block, or a block of one, as found where the half that is left is of a greater order or there is none.
fn found_free(block: Span, whole: u32, half: Option<Half>) -> Looked
    ensures below { (found : Found) → result ≡ Looked.Block found → IsBelow whole half × (found ≡ record { block = block; origin = Origin.Free whole }) }
    ensures none { result ≡ Looked.Nowhere → ⊥ }
{
    if is_below(whole, half) {
        Looked::Block(Found {
            block,
            origin: Origin::Free(whole),
        })
    } else {
        Looked::Unknown
    }
}

/// Finds the first free block that is the next block of the order `order` or from which it is split, of the least order that
/// has one.
fn find_free(
    free: &FreeBlocks,
    range: Span,
    topdown: bool,
    order: u32,
    rests: &[Span],
    half: Option<Half>,
) -> Looked
    requires { length rests.now ≡ 32 }
    ensures { IsLookedFree (is_free free.now) (length free.now) range topdown order rests.now half result }
{
    let size = free.size();
    let mut from = order;
    while let Some(whole) = free.least_whole(range, from) {
        if is_beyond(whole, half) {
            return Looked::Nowhere;
        }
        let rest = rest_of(rests, whole);
        if let Some(block) = free.first_piece(rest, topdown, order, whole) {
            return found_free(block, whole, half);
        }
        from = whole + 1;
        if !has_even_ends(range, from, size) {
            return Looked::Unknown;
        }
    }
    Looked::Nowhere
}

/// Finds the next block of the order `order`.
fn next_block(
    free: &FreeBlocks,
    range: Span,
    topdown: bool,
    order: u32,
    rests: &[Span],
    half: Option<Half>,
) -> Looked
    requires count { length rests.now ≡ 32 }
    requires numbers { HasNumbers half }
    ensures { IsLooked (is_free free.now) (length free.now) range topdown order rests.now half result }
{
    let looked = find_free(free, range, topdown, order, rests, half);
    let Looked::Nowhere = looked else {
        return looked;
    };
    let Some(left) = half else {
        return Looked::Nowhere;
    };
    if order < left.order {
        Looked::Block(Found {
            block: first_in(left, topdown, order),
            origin: Origin::Spare(left),
        })
    } else {
        Looked::Unknown
    }
}

/// Finds the first block of the order `order` where no block that was found is left unmarked.
fn find_fresh(free: &FreeBlocks, range: Span, topdown: bool, order: u32) -> Option<Found>
    ensures found { IfSome result (λ found. (rests : List Span) → rests ≡ replicate 32 range → IsFound (is_free free.now) (length free.now) range topdown order rests None found) }
    ensures room { IfSome result (HasRoom order) }
    ensures none { result ≡ None → (i w : ℕ) → IsPiece (is_free free.now) (length free.now) range order w i → ⊥ }
{
    let whole = free.least_whole(range, order)?;
    let block = free.first_piece(range, topdown, order, whole)?;
    Some(Found {
        block,
        origin: Origin::Free(whole),
    })
}

/// Marks the pages of blocks as held, as far as there are such pages.
fn mark_held(free: &mut FreeBlocks, blocks: &[Span])
    ensures size { length free.new ≡ length free.old }
    ensures held { (page : ℕ) → is_free free.new page ≡ beside (is_free free.old) blocks.now page }
{
    let size = free.size();
    for block in blocks {
        let end = block.end.min(size);
        let pages = Span {
            start: block.start,
            end,
        };
        free.mark(pages, false);
    }
}

/// Marks all blocks that were found as held. Then the free blocks tell what is left.
fn mark_all(free: &mut FreeBlocks, range: Span, search: &mut Search, blocks: &Spans)
    requires { search.old.marked ≤ length blocks.now }
    ensures size { length free.new ≡ length free.old }
    ensures left { search.new.left ≡ search.old.left }
    ensures order { search.new.order ≡ search.old.order }
    ensures marked { search.new.marked ≡ length blocks.now }
    ensures rests { search.new.rests ≡ replicate 32 range }
    ensures half { search.new.half ≡ None }
    ensures held { (page : ℕ) → is_free free.new page ≡ beside (is_free free.old) (drop search.old.marked blocks.now) page }
{
    mark_held(free, &blocks.items()[search.marked..]);
    search.marked = blocks.len();
    search.rests = [range; ORDERS];
    search.half = None;
}

/// Finds the next block. Where it can't be known otherwise, the blocks that were found are marked before.
fn find_next(
    free: &mut FreeBlocks,
    range: Span,
    topdown: bool,
    search: &mut Search,
    blocks: &Spans,
) -> Option<Found>
    requires some { 0 < search.old.left }
    requires marked { search.old.marked ≤ length blocks.now }
    requires numbers { HasNumbers search.old.half }
    requires count { length search.old.rests ≡ 32 }
    ensures finding { (before : List Bool) (pages : ℕ) → IsFinding before range topdown pages free.old blocks.now search.old → IsFinding before range topdown pages free.new blocks.now search.new }
    ensures size { length free.new ≡ length free.old }
    ensures left { search.new.left ≡ search.old.left }
    ensures order { search.new.order ≡ search.old.order }
    ensures marked { search.new.marked ≤ length blocks.now }
    ensures count { length search.new.rests ≡ 32 }
    ensures found { IfSome result (IsFound (is_free free.new) (length free.new) range topdown search.new.order search.new.rests search.new.half) }
    ensures room { IfSome result (HasRoom search.new.order) }
    ensures none { result ≡ None → (g : ℕ → Bool) → IsKnown g (is_free free.new) (length free.new) range search.new.rests search.new.half → (i w : ℕ) → IsPiece g (length free.new) range search.new.order w i → ⊥ }
{
    match next_block(
        free,
        range,
        topdown,
        search.order,
        &search.rests,
        search.half,
    ) {
        Looked::Block(found) => Some(found),
        Looked::Nowhere => None,
        Looked::Unknown => {
            mark_all(free, range, search, blocks);
            find_fresh(free, range, topdown, search.order)
        }
    }
}

/// Goes on to the next lower order where one has no block. `NoBlocks` means that the order was 0, and changes nothing.
fn next_order(search: &mut Search) -> Result<(), AllocFault>
    ensures fault { OnErr result (result ≡ Err AllocFault.NoBlocks) }
    ensures least { OnErr result (search.old.order ≡ 0) }
    ensures kept { OnErr result (search.new ≡ search.old) }
    ensures order { OnOk result (search.new.order + 1 ≡ search.old.order) }
    ensures left { search.new.left ≡ search.old.left }
    ensures rests { search.new.rests ≡ search.old.rests }
    ensures half { search.new.half ≡ search.old.half }
    ensures marked { search.new.marked ≡ search.old.marked }
{
    let order = search.order;
    if order == 0 {
        return Err(AllocFault::NoBlocks);
    }
    search.order = order - 1;
    Ok(())
}

/// Pushes a block at the end of `out`. Where memory is refused `out` stays as it was.
fn put_block(out: &mut Spans, block: Span) -> Result<(), AllocFault>
    ensures out { OnOk result (out.new ≡ out.old ++ block ∷ []) }
    ensures fault { OnErr result (result ≡ Err AllocFault.NoMemory) }
    ensures same { OnErr result (out.new ≡ out.old) }
{
    match out.push(block) {
        Ok(()) => Ok(()),
        Err(NoMemory) => Err(AllocFault::NoMemory),
    }
}

/// Notes the last of the blocks that were found, if pages are left to find. Where what is left can't be known otherwise, all
/// blocks are marked.
fn note_found(
    free: &mut FreeBlocks,
    range: Span,
    topdown: bool,
    search: &mut Search,
    found: Found,
    blocks: &Spans,
)
    requires marked { search.old.marked ≤ length blocks.now }
    requires count { length search.old.rests ≡ 32 }
    requires room { HasRoom search.old.order found }
    ensures left { search.new.left ≡ search.old.left }
    ensures order { search.new.order ≡ search.old.order }
    ensures count { length search.new.rests ≡ 32 }
    ensures numbers { HasNumbers search.old.half → HasNumbers search.new.half }
    ensures marks { (before : List Bool) → IsMarkedIn before free.old search.old.marked blocks.now → IsMarkedIn before free.new search.new.marked blocks.now }
    ensures known { 0 < search.old.left → (before : List Bool) (test g : ℕ → Bool) → Tells test before → IsMarkedIn before free.old search.old.marked blocks.now → IsFound (is_free free.old) (length before) range topdown search.old.order search.old.rests search.old.half found → IsKnown g (is_free free.old) (length before) range search.old.rests search.old.half → beside test blocks.now ≡ less g found.block → IsKnown (beside test blocks.now) (is_free free.new) (length before) range search.new.rests search.new.half }
{
    if search.left == 0 {
        return;
    }
    let size = free.size();
    let order = search.order;
    if note(
        &mut search.rests,
        &mut search.half,
        topdown,
        size,
        order,
        found,
    ) {
        return;
    }
    mark_all(free, range, search, blocks);
}

/// Finds the next block, or goes on to the next lower order.
fn step(
    free: &mut FreeBlocks,
    range: Span,
    topdown: bool,
    search: &mut Search,
    out: &mut Spans,
) -> Result<(), AllocFault>
    requires some { 0 < search.old.left }
    requires marked { search.old.marked ≤ length out.old }
    requires numbers { HasNumbers search.old.half }
    requires count { length search.old.rests ≡ 32 }
    ensures finding { OnOk result ((before : List Bool) (pages : ℕ) → IsFinding before range topdown pages free.old out.old search.old → IsFinding before range topdown pages free.new out.new search.new) }
    ensures marks { OnErr result ((before : List Bool) (pages : ℕ) → IsFinding before range topdown pages free.old out.old search.old → IsMarkedIn before free.new search.new.marked out.new) }
    ensures none { result ≡ Err AllocFault.NoBlocks → (before : List Bool) (pages : ℕ) → IsFinding before range topdown pages free.old out.old search.old → (test : ℕ → Bool) → Tells test before → words.scattered pages test (length before) range topdown pages ≡ None }
    ensures less { OnOk result (work_of search.new < work_of search.old) }
    ensures count { length search.new.rests ≡ 32 }
{
    let order = search.order.min(log2(search.left));
    search.order = order;
    let Some(found) = find_next(free, range, topdown, search, out) else {
        next_order(search)?;
        return Ok(());
    };
    put_block(out, found.block)?;
    let left = search.left.saturating_sub(block_len(order));
    search.left = left;
    note_found(free, range, topdown, search, found, out);
    Ok(())
}

/// Finds blocks until no page is left to find. After an error the blocks that were found are in `out`.
fn find_all(
    free: &mut FreeBlocks,
    range: Span,
    topdown: bool,
    search: &mut Search,
    out: &mut Spans,
) -> Result<(), AllocFault>
    requires finding { IsFinding free.old range topdown search.old.left free.old out.old search.old }
    requires count { length search.old.rests ≡ 32 }
    ensures marks { IsMarkedIn free.old free.new search.new.marked out.new }
    ensures ok { OnOk result ((test : ℕ → Bool) → Tells test free.old → words.scattered search.old.left test (length free.old) range topdown search.old.left ≡ Some out.new) }
    ensures none { result ≡ Err AllocFault.NoBlocks → (test : ℕ → Bool) → Tells test free.old → words.scattered search.old.left test (length free.old) range topdown search.old.left ≡ None }
{
    while search.left > 0 {
        step(free, range, topdown, search, out)?;
    }
    Ok(())
}

/// Finds block after block, of which none stays marked, and puts them into `out`. After an error `out` is empty.
pub(crate) fn find_blocks(
    free: &mut FreeBlocks,
    range: Span,
    topdown: bool,
    pages: u32,
    out: &mut Spans,
) -> Result<(), AllocFault>
    requires empty { out.old ≡ [] }
    requires some { 1 ≤ pages }
    ensures can { OnOk result (AreTaken (is_free free.old) (length free.old) out.new) }
    ensures same { IsSame free.old free.new }
    ensures ok { OnOk result ((test : ℕ → Bool) → Tells test free.old → words.scattered pages test (length free.old) range topdown pages ≡ Some out.new) }
    ensures none { result ≡ Err AllocFault.NoBlocks → (test : ℕ → Bool) → Tells test free.old → words.scattered pages test (length free.old) range topdown pages ≡ None }
    ensures empty { OnErr result (out.new ≡ []) }
{
    let mut search = Search {
        left: pages,
        order: log2(pages),
        rests: [range; ORDERS],
        half: None,
        marked: 0,
    };
    let found = find_all(free, range, topdown, &mut search, out);
    free_spans(free, &out.items()[..search.marked]);
    match found {
        Ok(()) => Ok(()),
        Err(fault) => {
            out.clear();
            Err(fault)
        }
    }
}
