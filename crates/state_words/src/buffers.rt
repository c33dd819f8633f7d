ghost use Rattle.std.specs.Prelude.{◌≡◌, IfOk, map, option_copied};
ghost use Rattle.journal_model.specs.rules.State as words;

use journal_model::{BufIds, Commands, Course, Courses, Targets, Victims};
use std::alloc::Global;
use ttm_base::{BufId, Mem, NoMemory, Spans};

/// Returns the spans that were found for a buffer in the memory type `mem`, if there are any.
pub fn target_of(mem: Mem, targets: &Targets) -> Option<&Spans>
    ensures { option_copied result ≡ words.target_of mem targets.now }
{
    match mem {
        Mem::System => targets.system.as_ref(),
        Mem::Tt => targets.tt.as_ref(),
        Mem::Vram => targets.vram.as_ref(),
    }
}

/// Sets the target in the memory type `mem` to `spans`, or to none.
pub fn set_target(targets: &mut Targets, mem: Mem, spans: Option<Spans>)
    ensures { targets.new ≡ words.with_target mem spans targets.old }
{
    match mem {
        Mem::System => targets.system = spans,
        Mem::Tt => targets.tt = spans,
        Mem::Vram => targets.vram = spans,
    }
}

/// Returns the state of a thread that has answered `answered` commands, at the start of the next one.
pub fn new_course(alloc: Global, answered: u32) -> Course
    ensures { result ≡ words.new_course answered }
{
    Course {
        answered,
        stamp: None,
        held: BufIds::new(alloc),
        first: None,
        made: false,
        forced: false,
        dry: 0,
        fail: None,
        caught: Victims::new(alloc),
        skips: BufIds::new(alloc),
    }
}

/// Returns the courses of `threads`, each at its first command.
pub fn first_courses(alloc: Global, threads: &[Commands]) -> Result<Courses, NoMemory>
    ensures { IfOk result (λ courses. courses ≡ map (λ commands. words.new_course 0) threads.now) }
{
    let mut courses = Courses::new(alloc);
    for _thread in threads {
        courses.push(new_course(alloc, 0))?;
    }
    Ok(courses)
}
