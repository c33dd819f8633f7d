//! Laws on packets that run on pages: where each page of each buffer has a page of its own, the packets of operations are the
//! operations.
#![tactic(auto)]

ghost use Rattle.std.specs.Prelude.{◌≡◌, ℕ, ◌*◌, ◌<◌, Some, false, List, slice_get};
ghost use Rattle.ttm_base.specs.declared.BufId.{BufId};
ghost use Rattle.ttm_base.specs.declared.Op.{Op};
ghost use Rattle.ttm_base.specs.declared.Packet.{Packet};
ghost use Rattle.ttm_base.specs.Cutting.{PageMap, packets_of};
ghost use Rattle.ttm_base.specs.Pages.{Page, PageBytes, Aperture, same_page, translated};
ghost use Rattle.journal_model.specs.rules.PlainMemory.{after_ops};
ghost use Rattle.copy_packet.specs.declared.stores.Stores.{Stores};
ghost use Rattle.copy_packet.specs.Runs.{CanRun};
ghost use Rattle.law_packets.specs.Ready.{AllShort, AreThere};
ghost use Rattle.law_packets.specs.Through.{AllInside, AreApart, after_packets, memory_of, packets_show, probes_show};

/// All packets run in order change the bytes of buffers, each read through its pages, as the operations applied whole do.
pub fn packets_make_the_operations()
    ensures { (aper : Aperture) (names : PageMap) (pages : ℕ → ℕ) (ops : List Op) (bytes : PageBytes) → AreApart aper names pages → AllInside pages ops → (b x : ℕ) → x < 4096 * pages b → memory_of aper names (after_packets aper bytes (packets_of names ops)) b x ≡ after_ops (memory_of aper names bytes) ops b x }
{}

/// No packet changes a page that isn't one of a buffer.
pub fn other_pages_stay()
    ensures { (aper : Aperture) (names : PageMap) (pages : ℕ → ℕ) (ops : List Op) (bytes : PageBytes) (page : Page) → AllInside pages ops → ((b : BufId) (i : ℕ) → i < pages b.0 → same_page page (translated aper (names b i)) ≡ false) → (off : ℕ) → after_packets aper bytes (packets_of names ops) page off ≡ bytes page off }
{}

/// What the packets show, joined, is what the probes of the operations show.
pub fn joined_pieces_are_the_probes()
    ensures { (aper : Aperture) (names : PageMap) (pages : ℕ → ℕ) (ops : List Op) (bytes : PageBytes) → AreApart aper names pages → AllInside pages ops → packets_show aper bytes (packets_of names ops) ≡ probes_show (memory_of aper names bytes) ops }
{}

/// Where stores have the pages of the buffers, each packet can run.
pub fn packets_can_run()
    ensures { (s : Stores) (names : PageMap) (pages : ℕ → ℕ) (ops : List Op) → AreThere s names pages → AllInside pages ops → AllShort ops → (k : ℕ) (p : Packet) → slice_get (packets_of names ops) k ≡ Some p → CanRun s p }
{}
