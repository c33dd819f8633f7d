ghost use Rattle.std.specs.Prelude.{◌≡◌, IsSome, Some};
ghost use Rattle.std.specs.List.{filter_map};
ghost use Rattle.journal_model.specs.rules.Places.{frame_of};
ghost use Rattle.room_representation.specs.lemma_bytes.GivenBack.{given_back};
ghost use Rattle.room_pages.specs.Tables.{AreHeldInTurn, frame_in};

use page_pool::PagePool;
use ttm_base::Loc;

/// Gives the frames of a page table back to the pool, in order.
pub fn give_frames(pool: &mut PagePool, places: &[Loc])
    requires { AreHeldInTurn pool.old places.now }
    ensures { pool.new ≡ given_back pool.old (filter_map frame_of places.now) }
{
    for place in places {
        if let Loc::Frame(frame) = *place {
            pool.give(frame);
        }
    }
}

/// Returns the frame of page `page`, which has one.
pub(crate) fn frame_of_page(places: &[Loc], page: u32) -> u32
    requires { IsSome (frame_in places.now page) }
    ensures { frame_in places.now page ≡ Some result }
{
    let Loc::Frame(frame) = places[page as usize] else {
        unreachable!()
    };
    frame
}
