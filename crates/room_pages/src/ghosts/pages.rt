ghost use Rattle.std.specs.Prelude.{◌≡◌, filter_map};
ghost use Rattle.journal_model.specs.rules.Places.{slot_of};
ghost use Rattle.room_representation.specs.lemma_bytes.GivenBack.{given_back};
ghost use Rattle.room_pages.specs.ghosts.InTurn.{AreHeldInTurn, AreHeldAlong};

use page_pool::PagePool;
use swap_store::SwapStore;
use ttm_base::Loc;

/// Gives `frames` back to the pool, in order.
pub(crate) fn give_all(pool: &mut PagePool, frames: &[u32])
    requires { AreHeldInTurn pool.old frames.now }
    ensures { pool.new ≡ given_back pool.old frames.now }
{
    for frame in frames {
        pool.give(*frame);
    }
}

/// Frees the slots of the page table `places`; nobody reads their bytes any more.
pub(crate) fn drop_slots(swap: &mut SwapStore, places: &[Loc])
    requires { AreHeldAlong slot_of swap.old.held places.now }
    ensures { swap.new ≡ record { held = given_back swap.old.held (filter_map slot_of places.now); bytes = swap.old.bytes } }
{
    for place in places {
        if let Loc::Slot(slot) = *place {
            swap.drop_slot(slot);
        }
    }
}
