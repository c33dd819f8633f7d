ghost use Rattle.std.specs.Prelude.{◌≡◌};
ghost use Rattle.journal_model.specs.rules.Holds as holds;
ghost use Rattle.journal_model.specs.rules.Choice as choices;

use journal_model::Script;
use place_list::spans::reach;
use ttm_base::{Mem, Place, Span};

/// Returns the size of a memory type in pages.
pub fn size_of(script: &Script, mem: Mem) -> u32
    ensures { result ≡ holds.size_of script.now mem }
{
    match mem {
        Mem::System => 0,
        Mem::Tt => script.sizes.tt,
        Mem::Vram => script.sizes.vram,
    }
}

/// Returns the span of pages that a place reaches.
pub fn reach_of(script: &Script, place: Place) -> Span
    ensures { result ≡ choices.reach_of script.now place }
{
    reach(place, size_of(script, place.mem))
}
