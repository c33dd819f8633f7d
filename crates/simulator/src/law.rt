ghost use Rattle.journal_model.specs.rules.Legal.{IsLegal};
ghost use Rattle.journal_model.specs.rules.Transparent.{IsTransparent};
ghost use Rattle.law_legal.specs.KeepsLaws.{KeepsLaws};
ghost use Rattle.simulator.specs.Lawful.{HasItsBytes, HasItsSlots};

use room_representation::Parts;
use sim_drive::Device;

/// Returns the parts of `device`, with what holds of each device, whatever turns it has taken: the journal is legal and transparent, and keeps the
/// other laws; VRAM, frames and slots, held or free, have the bytes that the journal leads to.
#[tactic(auto, using(crate::proofs::DeviceLaws::laws_of, crate::proofs::DeviceLaws::bytes_of, crate::proofs::DeviceLaws::slots_of))]
pub fn lawful_parts(device: &Device) -> &Parts
    ensures legal { IsLegal device.now.script device.now.journal }
    ensures transparent { IsTransparent device.now.script device.now.journal }
    ensures laws { KeepsLaws device.now.script device.now.journal }
    ensures bytes { HasItsBytes device.now result.now }
    ensures slots { HasItsSlots device.now result.now }
{
    device.rooms().parts()
}
