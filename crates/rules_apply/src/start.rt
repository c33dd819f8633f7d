ghost use Rattle.std.specs.Prelude.{◌≡◌, ◌++◌, IfOk, None, OnOk, [], map, replicate};
ghost use Rattle.journal_model.specs.rules.State as words;
ghost use Rattle.journal_model.specs.rules.Legal as legal;

use journal_model::{
    BufIds, Buffers, Core, Decl, Ghosts, Jobs, Lists, Numbers, Reservations, Script, State,
};
use rules_state::no_reservation;
use state_words::first_courses;
use std::alloc::Global;
use ttm_base::NoMemory;

/// Adds an entry to `buffers` for each declared buffer, all of them dead.
fn add_dead(buffers: &mut Buffers, decls: &[Decl]) -> Result<(), NoMemory>
    ensures { OnOk result (buffers.new ≡ buffers.old ++ map (λ d. None) decls.now) }
{
    for _decl in decls {
        buffers.push(None)?;
    }
    Ok(())
}

/// Adds a reservation to `reservations` for each declared buffer, neither pinned nor held.
fn add_unreserved(reservations: &mut Reservations, decls: &[Decl]) -> Result<(), NoMemory>
    ensures { OnOk result (reservations.new ≡ reservations.old ++ map (λ d. words.no_reservation) decls.now) }
{
    for _decl in decls {
        reservations.push(no_reservation())?;
    }
    Ok(())
}

/// Adds `count` empty lists of buffers to `lists`.
fn add_empty(alloc: Global, lists: &mut Lists, count: u32) -> Result<(), NoMemory>
    ensures { OnOk result (lists.new ≡ lists.old ++ replicate count []) }
{
    for _list in 0..count {
        lists.push(BufIds::new(alloc))?;
    }
    Ok(())
}

/// Adds `count` zeros to `numbers`.
fn add_zeros(numbers: &mut Numbers, count: usize) -> Result<(), NoMemory>
    ensures { OnOk result (numbers.new ≡ numbers.old ++ replicate count 0) }
{
    for _number in 0..count {
        numbers.push(0)?;
    }
    Ok(())
}

/// Returns the state before all entries: all buffers dead, all pages free, all lists empty.
pub fn first_state(alloc: Global, script: &Script) -> Result<State, NoMemory>
    ensures { IfOk result (λ s. s ≡ legal.first_state script.now) }
{
    let courses = first_courses(alloc, script.threads.items())?;
    let mut state = State {
        core: Core {
            buffers: Buffers::new(alloc),
            jobs: Jobs::new(alloc),
            ghosts: Ghosts::new(alloc),
            move_fence: None,
        },
        reservations: Reservations::new(alloc),
        lists: Lists::new(alloc),
        last_stamp: 0,
        last_ghost: 0,
        last_jobs: Numbers::new(alloc),
        courses,
    };
    add_dead(&mut state.core.buffers, script.buffers.items())?;
    add_unreserved(&mut state.reservations, script.buffers.items())?;
    add_empty(alloc, &mut state.lists, 12)?;
    add_zeros(&mut state.last_jobs, script.sizes.engines as usize + 1)?;
    Ok(state)
}
