ghost use Rattle.std.specs.Prelude.{◌≡◌, ◌==◌, IfOk, find, option_copied};
ghost use Rattle.ttm_base.specs.Cutting as words;
ghost use Rattle.copy_packet.specs.PlaceRows as rows;
ghost use Rattle.copy_packet.specs.PlaceRows.{page_map};

use crate::places::{PlaceMap, PlaceRow};
use op_cutting::PageNames;
use std::alloc::Global;
use ttm_base::{BufId, NoMemory, Op, Packet, PagePlace};

/// Returns the first row of the buffer `b`, if there is one.
fn row_of(table: &[PlaceRow], b: BufId) -> Option<&PlaceRow>
    ensures { option_copied result ≡ find (λ row. row.b.0 == b.0) table.now }
{
    table.iter().find(|row| row.b.0 == b.0)
}

/// Returns the name that packets use for the page `page` of a row, which is frame 0 where the row has no such page.
fn name_in(row: Option<&PlaceRow>, page: u32) -> PagePlace
    ensures { result ≡ rows.name_in (option_copied row.entry) page }
{
    let Some(row) = row else {
        return PagePlace::Frame(0);
    };
    match row.pages.items().get(page as usize) {
        Some(place) => *place,
        None => PagePlace::Frame(0),
    }
}

/// The names of pages as the rows of a table give them.
#[derive(Drop)]
struct Rows<'a> {
    places: &'a PlaceMap,
}

impl PageNames for Rows<'_> {
    ghost names = { λ rows. page_map rows.places.now };

    fn name_of(&self, b: BufId, page: u32) -> PagePlace {
        name_in(row_of(self.places.items(), b), page)
    }
}

/// Cuts operations, in order and each from its lowest byte, at every page border of their buffers. Each operation should lie
/// inside its buffers, which have rows: a page without a row is taken for frame 0.
pub fn cut(alloc: Global, ops: &[Op], places: &PlaceMap) -> Result<Vec<Packet>, NoMemory>
    ensures { IfOk result (λ packets. packets.items ≡ words.packets_of (page_map places.now) ops.now) }
{
    let mut packets = Vec::new(alloc);
    op_cutting::cut(&mut packets, &Rows { places }, ops)?;
    Ok(packets)
}
