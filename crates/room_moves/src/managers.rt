ghost use Rattle.std.specs.Prelude.{◌≡◌, false};
ghost use Rattle.ttm_base.specs.declared.Owner.TheVariants as owner;
ghost use Rattle.resource_core.specs.Resources.{holds};
ghost use Rattle.resource_core.specs.Vram.{spans_of_kind};
ghost use Rattle.room_representation.specs.lemma_spans.Calls.{arrived, carried, left_by};
ghost use Rattle.room_moves.specs.Rooms.{CanCarry, CanLeave, with_fence_left};

use journal_model::Left;
use resource_core::{Manager, VramRoom};
use room_pages::binding::{give_back, pass_on};
use ttm_base::{BufId, JobId, Mem, Owner};

/// Frees the spans of buffer `b`, or passes them to its ghost, as `left` tells.
fn leave<M: Manager>(room: &mut M, b: BufId, left: Left)
    requires { CanLeave left (M.resources room.old) }
    ensures held { M.resources room.new ≡ left_by b left (M.resources room.old) }
    ensures rule { M.choice room.new ≡ M.choice room.old }
{
    match left {
        Left::Now => give_back(room, Owner::Live(b)),
        Left::Ghost(num) => pass_on(room, Owner::Live(b), Owner::Ghost(num)),
    }
}

/// Makes the target of buffer `b` in `mem` its place, if this manager is that of `mem`.
fn arrive<M: Manager>(room: &mut M, mine: Mem, mem: Mem, b: BufId)
    requires { holds (owner.Live b) (M.resources room.old).held ≡ false }
    ensures held { M.resources room.new ≡ arrived mine mem b (M.resources room.old) }
    ensures rule { M.choice room.new ≡ M.choice room.old }
{
    if mem == mine {
        pass_on(room, Owner::Target(b), Owner::Live(b));
    }
}

/// Moves buffer `b` to its target in `mem` in the manager of the memory type `mine`, which keeps its part of both places.
pub(crate) fn carry_spans<M: Manager>(room: &mut M, mine: Mem, mem: Mem, b: BufId, left: Left)
    requires { CanCarry b left (M.resources room.old) }
    ensures held { M.resources room.new ≡ carried mine mem b left (M.resources room.old) }
    ensures rule { M.choice room.new ≡ M.choice room.old }
{
    leave(room, b, left);
    arrive(room, mine, mem, b);
}

/// Makes `job`, the move's, the move fence where pages of VRAM are free at once.
pub(crate) fn keep_move_fence(room: &mut VramRoom, job: JobId, left: Left)
    ensures held { room.new.resources ≡ with_fence_left job left room.old.resources }
    ensures rule { spans_of_kind room.new.kind ≡ spans_of_kind room.old.kind }
{
    match left {
        Left::Now => room.set_move_fence(job),
        Left::Ghost(_) => {}
    }
}
