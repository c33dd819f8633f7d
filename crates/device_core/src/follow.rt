//! Mappings of buffers by the CPU follow the entries of the rooms.
ghost use Rattle.std.specs.Prelude.{◌≡◌, ◌∷◌, ◌++◌, List, [], Some};
ghost use Rattle.journal_model.specs.declared.entry.Entry.{Entry as OneEntry};
ghost use Rattle.journal_model.specs.rules.Legal.{state_of};
ghost use Rattle.map_follow.specs.Follows as words;
ghost use Rattle.map_follow.specs.Laws.{areas_after};

use cpu_maps::CpuMaps;
use journal_model::Entry;
use map_access::MarkSearch;
use map_follow::{answerer, end_mappings, fault_in, found_by, leave};
use room_state::Rooms;

/// Does to `maps` what the last entry does, which answers `thread`: what it found has entries, and mappings end after it.
fn follow_answer(maps: &mut CpuMaps, rooms: &Rooms, before: &[Entry], entry: &Entry, thread: u32)
    requires last { rooms.now.journal ≡ before.now ++ entry.now ∷ [] }
    requires who { words.answerer entry.now ≡ Some thread }
    ensures { maps.new ≡ areas_after rooms.now.script (state_of rooms.now.script before.now) entry.now maps.old }
{
    let _legal = rooms.journal();
    let search = MarkSearch::of_script(rooms.script());
    let answered = u64::from(rooms.course(thread).answered);
    if let Some(found) = found_by(&search, answered - 1, entry) {
        let bo = rooms.bos().get(found.pages.b);
        fault_in(maps, found, bo.mem, bo.spans.items(), bo.table.places());
    }
    end_mappings(maps, &search, thread, answered);
}

/// Does to `maps` what the last entry does. Takes no memory. Takes constant time without mappings. Else takes that of the mappings and of the pages
/// whose entries come or go and, where the entry answers a thread, that of searches by halves among the script's marks and of the marks at the
/// command.
pub(crate) fn follow(maps: &mut CpuMaps, rooms: &Rooms)
    ensures { (before : List OneEntry) (entry : OneEntry) → rooms.now.journal ≡ before ++ entry ∷ [] → maps.new ≡ areas_after rooms.now.script (state_of rooms.now.script before) entry maps.old }
{
    if maps.areas().is_empty() {
        return;
    }
    let Some((entry, before)) = rooms.journal().split_last() else {
        return;
    };
    match answerer(entry) {
        Some(thread) => follow_answer(maps, rooms, before, entry, thread),
        None => leave(maps, &entry.kind),
    }
}
