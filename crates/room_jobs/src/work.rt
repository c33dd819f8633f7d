ghost use Rattle.std.specs.Prelude.{◌≡◌, IsSome, option_copied};
ghost use Rattle.room_representation.specs.steps.Courses.{course_at};
ghost use Rattle.room_jobs.specs.Work.{work_of};

use journal_model::{Command, Courses, Script};
use state_words::commands_of;

/// Returns the command that `thread` is at, or None where none is left.
pub(crate) fn command_at_work<'a>(
    script: &'a Script,
    courses: &Courses,
    thread: u32,
) -> Option<&'a Command>
    requires { IsSome (course_at courses.now thread) }
    ensures { option_copied result ≡ work_of script.now courses.now thread }
{
    let course = courses.get(thread as usize - 1);
    commands_of(script, thread).get(course.answered as usize)
}
