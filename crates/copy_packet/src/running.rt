ghost use Rattle.std.specs.Prelude.{◌≡◌, ℕ, length};
ghost use Rattle.ttm_base.specs.Pages.{Page};
ghost use Rattle.ttm_base.specs.Packets.{after_packet, probe_piece};
ghost use Rattle.copy_packet.specs.StoreBytes.{aperture_of, bytes_of};
ghost use Rattle.copy_packet.specs.Runs.{CanRun};

use crate::probe::ProbeBytes;
use crate::stores::Stores;
use ttm_base::Packet;

/// Puts the bytes that a packet probes into `out`, or none if it is no probe, and changes nothing else. Takes no memory.
pub fn show(packet: &Packet, stores: &Stores, out: &mut ProbeBytes)
    requires { CanRun stores.now packet.now }
    ensures { out.new ≡ probe_piece (aperture_of stores.now) (bytes_of stores.now) packet.now }
{
    out.clear();
    if let Packet::Probe { from, off, len } = *packet {
        let source = stores.spot(from, off);
        out.set(stores.part(source, len as u64))
    }
}

/// Runs a packet, and puts the bytes that it probes into `out`, or none if it is no probe. Takes no memory. Source and
/// target may overlap: all bytes are read before one is written.
pub fn run(packet: &Packet, stores: &mut Stores, out: &mut ProbeBytes)
    requires { CanRun stores.old packet.now }
    ensures bytes { (page : Page) (off : ℕ) → bytes_of stores.new page off ≡ after_packet (aperture_of stores.old) (bytes_of stores.old) packet.now page off }
    ensures vram { length stores.new.vram ≡ length stores.old.vram }
    ensures frames { length stores.new.frames ≡ length stores.old.frames }
    ensures aper { stores.new.aper ≡ stores.old.aper }
    ensures out { out.new ≡ probe_piece (aperture_of stores.old) (bytes_of stores.old) packet.now }
{
    show(packet, stores, out);
    match *packet {
        Packet::Fill { to, off, len, byte } => {
            let target = stores.spot(to, off);
            stores.fill(target, len as u64, byte)
        }
        Packet::Copy {
            to,
            toff,
            from,
            foff,
            len,
        } => {
            let target = stores.spot(to, toff);
            let source = stores.spot(from, foff);
            stores.copy(target, source, len as u64)
        }
        Packet::Xor {
            to,
            toff,
            from,
            foff,
            len,
        } => {
            let target = stores.spot(to, toff);
            let source = stores.spot(from, foff);
            stores.xor(target, source, len as u64)
        }
        Packet::Probe { .. } => {}
    }
}
