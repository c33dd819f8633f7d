ghost use Rattle.std.specs.Prelude.{◌≡◌, ◌+◌, ◌*◌, ◌≤◌, false, true, not, Some, IfSome, IfNone, length, position, slice_get, slice_set};
ghost use Rattle.byte_store.specs.Parts.{overwritten, part};

use crate::copies::bytes::assert_bytes;
use crate::wanted::is_number;
use byte_store::{ByteStore, PAGE};
use std::process::Abort;
use swap_store::SwapStore;

/// Copies the page of a frame into the lowest free slot.
fn swap_out(swap: &mut SwapStore, frames: &ByteStore, frame: u32) -> Option<u32>
    requires { PAGE * frame + PAGE ≤ length frames.now }
    ensures lowest { result ≡ position not swap.old.held }
    ensures held { IfSome result (λ slot. swap.new.held ≡ slice_set swap.old.held slot true) }
    ensures copied { IfSome result (λ slot. swap.new.bytes ≡ overwritten swap.old.bytes (PAGE * slot) (part frames.now (PAGE * frame) PAGE)) }
    ensures none { IfNone result (swap.new ≡ swap.old) }
{
    swap.put(frames.part(PAGE * frame as u64, PAGE))
}

/// Copies the page of a slot that is held into a frame, and frees the slot.
#[tactic(auto, using(std::proofs::lemmas::Option::slice_get_read))]
fn swap_in(frames: &mut ByteStore, frame: u32, swap: &mut SwapStore, slot: u32)
    requires there { PAGE * frame + PAGE ≤ length frames.old }
    requires held { slice_get swap.old.held slot ≡ Some true }
    ensures copied { frames.new ≡ overwritten frames.old (PAGE * frame) (part swap.old.bytes (PAGE * slot) PAGE) }
    ensures freed { swap.new ≡ record { held = slice_set swap.old.held slot false; bytes = swap.old.bytes } }
{
    frames.copy_page_part(PAGE * frame as u64, swap.page(slot));
    swap.drop_slot(slot);
}

/// Swaps frame 1 out to slot 0, which is the only one. Asserts that another frame finds none.
fn goes_out(rt: &impl Abort, swap: &mut SwapStore, frames: &ByteStore)
    requires { 2 * PAGE ≤ length frames.now }
    ensures { swap.new.held ≡ slice_set swap.old.held 0 true }
{
    is_number(rt, swap_out(swap, frames, 1), Some(0));
    is_number(rt, swap_out(swap, frames, 0), None);
}

/// Frame 1 goes to slot 0, and comes back into frame 0.
#[test]
fn page_goes_out_and_comes_back(rt: HostRuntime) {
    let rt = &rt;
    let mut frames = ByteStore::new(rt.alloc(), 2).expect(rt, "frames");
    let mut swap = SwapStore::new(rt.alloc(), 1).expect(rt, "a slot");
    frames.fill(PAGE + 4094, 2, 7);
    goes_out(rt, &mut swap, &frames);
    frames.zero_page(1);
    swap_in(&mut frames, 0, &mut swap, 0);
    assert_bytes(rt, &frames, 4093, &[0, 7, 7, 0]);
    is_number(rt, swap.first(), Some(0));
    drop(swap);
    drop(frames);
}
