//! The packets of a job, page by page: on the plain memory they do what its operations do whole, and show what is due.
ghost use Rattle.std.specs.Prelude.{◌≡◌, ℕ, List, true};
ghost use Rattle.std.specs.List.{list_all};
ghost use Rattle.ttm_base.specs.declared.Op.{Op};
ghost use Rattle.ttm_base.specs.Cutting.{PageMap, packets_of};
ghost use Rattle.ttm_base.specs.Pages.{Aperture};
ghost use Rattle.journal_model.specs.declared.script.Script.{Script};
ghost use Rattle.journal_model.specs.scripts.CommandRules.{is_op};
ghost use Rattle.journal_model.specs.rules.PlainMemory.{Memory, after_ops, pieces_shown};
ghost use Rattle.laws.specs.lemma_bytes_model.Memory.{Page};
ghost use Rattle.laws.specs.lemma_bytes_model.Entries.{plain_after, steps};
ghost use Rattle.laws.specs.law_pieces.Pieces.{paged, views_of, with_shown, Aims};

/// All packets of a job in order change the plain memory as its operations applied whole do.
pub fn packets_make_the_operations()
    ensures { (script : Script) (ops : List Op) (m : Memory) → list_all (is_op script) ops ≡ true → plain_after (views_of ops) (paged m) ≡ paged (after_ops m ops) }
{}

/// Where names mean places, the packets are the pieces at their places, and what is due of each is what the plain memory shows.
pub fn packets_show_what_is_due()
    ensures { (aper : Aperture) (names : PageMap) (place : ℕ → ℕ → Page) (script : Script) (ops : List Op) (m : Memory) → Aims aper names place → list_all (is_op script) ops ≡ true → steps place (views_of ops) (paged m) ≡ with_shown aper (packets_of names ops) (pieces_shown m ops) }
{}
