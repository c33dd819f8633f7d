ghost use Rattle.std.specs.Prelude.{◌≡◌, IsSome};
ghost use Rattle.journal_model.specs.rules.State.{without_buffer};
ghost use Rattle.room_representation.specs.steps.Courses.{course_at, with_course_by};
ghost use Rattle.room_pages.specs.ghosts.Leaving.{freeing};

use journal_model::{BufIds, Courses};
use state_words::same_buffer;
use ttm_base::BufId;

/// Takes buffer `b` out of `held`, the buffers that a thread holds.
fn let_go(held: &mut BufIds, b: BufId)
    ensures { held.new ≡ without_buffer held.old b }
{
    let mut i = 0;
    while i < held.len() {
        if same_buffer(b, held.at(i)) {
            let _ = held.remove(i);
        } else {
            i += 1;
        }
    }
}

/// Notes that `thread` has freed buffer `b`, which it no longer holds, and with that has done what its command is for.
pub(crate) fn has_freed(courses: &mut Courses, thread: u32, b: BufId)
    requires { IsSome (course_at courses.old thread) }
    ensures { courses.new ≡ with_course_by (freeing b) courses.old thread }
{
    let course = courses.get_mut(thread as usize - 1);
    let_go(&mut course.held, b);
    course.made = true;
}
