ghost use Rattle.std.specs.Prelude.{◌≡◌, ◌++◌, ◌+◌, ◌/◌, ◌%◌, OnOk, OnErr, length, map, take};
ghost use Rattle.ttm_base.specs.Cutting as words;
ghost use Rattle.ttm_base.specs.Cutting.{PageMap};

use crate::lists::PacketList;
use crate::pieces::{PAGE, op_len, until_border};
use ttm_base::{BufId, NoMemory, Op, Packet, PagePlace};

/// The names by which packets call the pages of buffers.
pub trait PageNames {
    /// The name of each page of a buffer.
    ghost names: { Self → PageMap };

    /// Returns the name of the page `page` of the buffer `b`.
    fn name_of(&self, b: BufId, page: u32) -> PagePlace
        ensures { result ≡ names self.now b page };
}

/// Returns the page of a buffer that has the byte `at` of an operation, whose bytes begin at offset `off` of the buffer.
fn page_of(off: u32, at: u32) -> u32
    ensures { result ≡ (off + at) / 4096 }
{
    ((off as u64 + at as u64) / PAGE) as u32
}

/// Returns the offset in its page of the byte `at` of an operation, whose bytes begin at offset `off` of the buffer.
fn offset_of(off: u32, at: u32) -> u32
    ensures { result ≡ (off + at) % 4096 }
{
    ((off as u64 + at as u64) % PAGE) as u32
}

/// Returns the packet of the `len` bytes of an operation from byte `at` on, which don't cross a page border.
fn packet_of<N: PageNames>(names: &N, op: &Op, at: u32, len: u32) -> Packet
    ensures { result ≡ words.packet_of (N.names names.now) op.now (record { at = at; len = len }) }
{
    match op {
        Op::Fill { dst, off, byte, .. } => Packet::Fill {
            to: names.name_of(*dst, page_of(*off, at)),
            off: offset_of(*off, at),
            len,
            byte: *byte,
        },
        Op::Copy {
            dst,
            doff,
            src,
            soff,
            ..
        } => Packet::Copy {
            to: names.name_of(*dst, page_of(*doff, at)),
            toff: offset_of(*doff, at),
            from: names.name_of(*src, page_of(*soff, at)),
            foff: offset_of(*soff, at),
            len,
        },
        Op::Xor {
            dst,
            doff,
            src,
            soff,
            ..
        } => Packet::Xor {
            to: names.name_of(*dst, page_of(*doff, at)),
            toff: offset_of(*doff, at),
            from: names.name_of(*src, page_of(*soff, at)),
            foff: offset_of(*soff, at),
            len,
        },
        Op::Probe { src, off, .. } => Packet::Probe {
            from: names.name_of(*src, page_of(*off, at)),
            off: offset_of(*off, at),
            len,
        },
    }
}

/// Adds the packets of an operation at the end. Where memory is refused the list has the first of them, up to some packet.
fn push_packets<N: PageNames, L: PacketList>(
    packets: &mut L,
    names: &N,
    op: &Op,
) -> Result<(), NoMemory>
    ensures ok { OnOk result (L.packets packets.new ≡ L.packets packets.old ++ map (words.packet_of (N.names names.now) op.now) (words.pieces_of op.now)) }
    ensures err { OnErr result (L.packets packets.new ≡ take (length (L.packets packets.new)) (L.packets packets.old ++ map (words.packet_of (N.names names.now) op.now) (words.pieces_of op.now))) }
{
    let len = op_len(op);
    let mut at = 0;
    while at < len {
        let n = until_border(op, at).min(len - at);
        packets.add(packet_of(names, op, at, n))?;
        at += n;
    }
    Ok(())
}

/// Adds the packets of operations at the end: each operation, in order and from its lowest byte, is cut at every page border
/// of its buffers. Where memory is refused the list has the first of them, up to some packet.
pub fn cut<N: PageNames, L: PacketList>(
    packets: &mut L,
    names: &N,
    ops: &[Op],
) -> Result<(), NoMemory>
    ensures ok { OnOk result (L.packets packets.new ≡ L.packets packets.old ++ words.packets_of (N.names names.now) ops.now) }
    ensures err { OnErr result (L.packets packets.new ≡ take (length (L.packets packets.new)) (L.packets packets.old ++ words.packets_of (N.names names.now) ops.now)) }
{
    for op in ops {
        push_packets(packets, names, op)?;
    }
    Ok(())
}
