ghost use Rattle.std.specs.Prelude.{◌≡◌, ◌<◌, IfOk};
ghost use Rattle.journal_model.specs.rules.Commands.{whole};
ghost use Rattle.generated_load.specs.Buffers.{load_buffer, load_buffers, load_name, load_pages, load_placement};

use crate::draws::Draws;
use journal_model::{Decl, Decls, Name};
use std::alloc::Global;
use ttm_base::{FlaggedPlace, FlaggedPlaces, Mem, NoMemory, Place, Placement};

/// Returns the name of a buffer: the letter b and the buffer's number.
fn name(alloc: Global, number: u32) -> Result<Name, NoMemory>
    requires { number < 24 }
    ensures { IfOk result (λ name. name ≡ load_name number) }
{
    let mut name = Name::new(alloc);
    name.push(b'b')?;
    if number >= 10 {
        name.push(b'0' + (number / 10) as u8)?;
    }
    name.push(b'0' + (number % 10) as u8)?;
    Ok(name)
}

/// Returns how many pages a buffer has, from 4 to 16: each thread has eight buffers.
fn pages(number: u32) -> u32
    ensures { result ≡ load_pages number }
{
    if number < 6 {
        4
    } else if number < 15 {
        8
    } else if number < 21 {
        12
    } else {
        16
    }
}

/// Returns the place that is all of the memory type `mem`.
fn whole(mem: Mem) -> Place
    ensures { result ≡ whole mem }
{
    Place {
        mem,
        first: 0,
        last: 0,
        topdown: false,
        contig: false,
    }
}

/// Returns the placement of each buffer: VRAM is preferred, and under pressure VRAM and TT are tried.
fn placement(alloc: Global) -> Result<Placement, NoMemory>
    ensures { IfOk result (λ placement. placement ≡ load_placement) }
{
    let mut list = FlaggedPlaces::new(alloc);
    list.push(FlaggedPlace {
        place: whole(Mem::Vram),
        desired: true,
        fallback: false,
    })?;
    list.push(FlaggedPlace {
        place: whole(Mem::Vram),
        desired: false,
        fallback: true,
    })?;
    list.push(FlaggedPlace {
        place: whole(Mem::Tt),
        desired: false,
        fallback: true,
    })?;
    Ok(Placement { list })
}

/// Returns buffer `number`. The members of a group are the buffers of a thread.
fn buffer(alloc: Global, number: u32, prio: u32) -> Result<Decl, NoMemory>
    requires { number < 24 }
    ensures { IfOk result (λ decl. decl ≡ load_buffer number prio) }
{
    Ok(Decl {
        name: name(alloc, number)?,
        pages: pages(number),
        prio,
        group: Some(number % 3),
        align: 1,
        placement: placement(alloc)?,
    })
}

/// Returns the 24 buffers, whose priorities are drawn in their order.
pub fn draw_buffers(alloc: Global, draws: &mut Draws) -> Result<Decls, NoMemory>
    ensures { IfOk result (λ buffers. (buffers, draws.new) ≡ load_buffers 24 draws.old) }
{
    let mut buffers = Decls::new(alloc);
    for number in 0..24 {
        let prio = draws.draw(4);
        buffers.push(buffer(alloc, number, prio)?)?;
    }
    Ok(buffers)
}
