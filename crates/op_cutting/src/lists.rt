ghost use Rattle.std.specs.Prelude.{◌≡◌, ◌∷◌, ◌++◌, List, [], OnOk, OnErr};
ghost use Rattle.ttm_base.specs.declared.Packet.{Packet};

use ttm_base::{ItemList, NoMemory, Packet};

/// A list to which packets are added.
pub trait PacketList {
    /// The packets of the list, in order.
    ghost packets: { Self → List Packet };

    /// Adds `packet` at the end. Where memory is refused the list stays as it was.
    fn add(&mut self, packet: Packet) -> Result<(), NoMemory>
        ensures ok { OnOk result (packets self.new ≡ packets self.old ++ packet ∷ []) }
        ensures err { OnErr result (packets self.new ≡ packets self.old) };
}

impl PacketList for Vec<Packet> {
    ghost packets = { λ list. list.items };

    fn add(&mut self, packet: Packet) -> Result<(), NoMemory> {
        self.push(packet)?;
        Ok(())
    }
}

impl PacketList for ItemList<Packet> {
    ghost packets = { λ list. list };

    fn add(&mut self, packet: Packet) -> Result<(), NoMemory> {
        self.push(packet)
    }
}
