//! Laws on cutting: the packets of an operation, one after another, are the operation.
ghost use Rattle.std.specs.Prelude.{◌≡◌, ℕ, List, Some, true, map, flat_map, slice_get};
ghost use Rattle.std.specs.List.{list_all};
ghost use Rattle.ttm_base.specs.declared.Op.{Op};
ghost use Rattle.ttm_base.specs.declared.Op.TheVariants as op;
ghost use Rattle.ttm_base.specs.declared.BufId.{BufId};
ghost use Rattle.ttm_base.specs.Cutting.{Piece, pieces_of};
ghost use Rattle.journal_model.specs.declared.script.Script.{Script};
ghost use Rattle.journal_model.specs.scripts.CommandRules.{is_op};
ghost use Rattle.journal_model.specs.rules.PlainMemory.{Memory, after_ops, memory_range, piece_shown};
ghost use Rattle.laws.specs.law_cutting.Parts.{part_of, IsPiece};

/// The pieces of operations, each as an operation of its own and in order, leave the memory that the operations leave.
pub fn pieces_make_the_operations()
    ensures { (script : Script) (ops : List Op) (m : Memory) → list_all (is_op script) ops ≡ true → after_ops m (flat_map (λ o. map (part_of o) (pieces_of o)) ops) ≡ after_ops m ops }
{}

/// Each piece has a byte, lies inside the operation, and is of one page of each of its buffers.
pub fn pieces_are_of_pages()
    ensures { (o : Op) (k : ℕ) (p : Piece) → slice_get (pieces_of o) k ≡ Some p → IsPiece o p }
{}

/// What the pieces of a probe show, joined, is what the probe shows.
pub fn joined_pieces_are_the_probe()
    ensures { (m : Memory) (src : BufId) (off len : ℕ) → flat_map (piece_shown m (op.Probe src off len)) (pieces_of (op.Probe src off len)) ≡ memory_range m src off len }
{}
