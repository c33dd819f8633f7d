ghost use Rattle.std.specs.Prelude.{◌≡◌, length};
ghost use Rattle.ttm_base.specs.declared.Mem.TheVariants.{Tt as InTt};
ghost use Rattle.journal_model.specs.rules.State.{target_spans};
ghost use Rattle.journal_model.specs.rules.Places.{pages_of};
ghost use Rattle.room_pages.specs.binding.Apertures.{AreBelow};
ghost use Rattle.room_representation.specs.steps.Lent.{as_buffer};
ghost use Rattle.room_moves.specs.Mappings.{mapped_in};

use aperture_table::Aperture;
use bo_table::Bo;
use room_pages::binding::map_pages;
use ttm_base::Mem;

/// Maps the pages of the target of the buffer `bo`, if that is in TT. The pages that it leaves stay mapped for its ghost.
pub(crate) fn map_target(aper: &mut Aperture, bo: &Bo, mem: Mem)
    requires { mem ≡ InTt → AreBelow (pages_of (target_spans InTt (as_buffer bo.now))) (length aper.old) }
    ensures { aper.new ≡ mapped_in mem aper.old (as_buffer bo.now) }
{
    let Mem::Tt = mem else {
        return;
    };
    if let Some(spans) = &bo.targets.tt {
        map_pages(aper, spans.items(), bo.table.places());
    }
}
