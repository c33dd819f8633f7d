ghost use Rattle.std.specs.Prelude.{◌≡◌};
ghost use Rattle.lru_bulk.specs.Lists.{touched};

use lru_bulk::Lru;
use ttm_base::BufId;

/// Places buffer `b` again on its list as just used, if it is on one.
pub fn touch(lru: &mut Lru, b: BufId)
    ensures { lru.new ≡ touched lru.old b }
{
    if lru.is_listed(b) {
        lru.touch(b);
    }
}
