ghost use Rattle.std.specs.Prelude.{◌≡◌, ◌<◌, false, length, slice_set};
ghost use Rattle.ttm_base.specs.declared.Owner.TheVariants as owner;
ghost use Rattle.journal_model.specs.rules.Places.{frame_of, pages_of};
ghost use Rattle.resource_core.specs.Resources.{holds, spans_at};
ghost use Rattle.room_representation.specs.lemma_bytes.Mapped.{mapped_to, cleared};
ghost use Rattle.room_representation.specs.lemma_spans.Calls.{given, passed_on};
ghost use Rattle.room_pages.specs.binding.Apertures.{AreBelow};

use aperture_table::Aperture;
use place_list::PageCursor;
use resource_core::{Manager, RangeRoom};
use ttm_base::{BufId, Loc, Owner, Span};

/// Clears the mappings of the pages of `spans`, in as many steps as there are pages and spans.
pub fn clear_pages(aper: &mut Aperture, spans: &[Span])
    requires { AreBelow (pages_of spans.now) (length aper.old) }
    ensures { aper.new ≡ cleared aper.old (pages_of spans.now) }
{
    for page in PageCursor::new(spans) {
        aper.clear(page);
    }
}

/// Maps page `page` as its place in a page table says: to its frame, if it has one.
fn map_page(aper: &mut Aperture, page: u32, place: Loc)
    requires { page < length aper.old }
    ensures after { aper.new ≡ slice_set aper.old page (frame_of place) }
    ensures len { length aper.new ≡ length aper.old }
{
    match place {
        Loc::Frame(frame) => aper.set(page, frame),
        Loc::Slot(_) | Loc::Zero => aper.clear(page),
    }
}

/// Maps the pages of `spans` to the frames of the page table `table`, one after the other, in as many steps as there are pages and spans.
pub fn map_pages(aper: &mut Aperture, spans: &[Span], table: &[Loc])
    requires { AreBelow (pages_of spans.now) (length aper.old) }
    ensures { aper.new ≡ mapped_to aper.old (pages_of spans.now) table.now }
{
    let mut pages = PageCursor::new(spans);
    for place in table {
        let Some(page) = pages.next() else {
            return;
        };
        map_page(aper, page, *place);
    }
}

/// Gives back the pages of TT that `owner` holds, if it holds some, and clears their mappings (ttm_resource_free).
pub fn give_mapped(aper: &mut Aperture, tt: &mut RangeRoom, owner: Owner)
    requires { AreBelow (pages_of (spans_at owner tt.old.held)) (length aper.old) }
    ensures aper { aper.new ≡ cleared aper.old (pages_of (spans_at owner tt.old.held)) }
    ensures tt { tt.new ≡ given owner tt.old }
{
    let Some(spans) = tt.spans_of(owner) else {
        return;
    };
    clear_pages(aper, spans.items());
    tt.give(owner);
}

/// Makes the pages of TT that are the target of buffer `b` the buffer's own, mapped to its frames (ttm_bo_move_null). The buffer holds none before.
pub fn map_target(aper: &mut Aperture, tt: &mut RangeRoom, b: BufId, table: &[Loc])
    requires below { AreBelow (pages_of (spans_at (owner.Target b) tt.old.held)) (length aper.old) }
    requires fresh { holds (owner.Live b) tt.old.held ≡ false }
    ensures aper { aper.new ≡ mapped_to aper.old (pages_of (spans_at (owner.Target b) tt.old.held)) table.now }
    ensures tt { tt.new ≡ passed_on (owner.Target b) (owner.Live b) tt.old }
{
    let Some(spans) = tt.spans_of(Owner::Target(b)) else {
        return;
    };
    map_pages(aper, spans.items(), table);
    tt.pass(Owner::Target(b), Owner::Live(b));
}
