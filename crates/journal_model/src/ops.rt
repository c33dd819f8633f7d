ghost use Rattle.std.specs.Prelude.{◌≡◌, ◌++◌, ◌∷◌, [], OnOk, OnErr, flat_map, length, option_to_list};
ghost use Rattle.journal_model.specs.rules.Mentions.{buffers_of_op, first_mentions};
ghost use Rattle.journal_model.specs.rules.Mentions as words;
ghost use Rattle.journal_model.specs.code.Ops.{with_buffer, with_buffers};

use std::alloc::Global;
use std::marker::Model;
use ttm_base::{BufId, ItemList, NoMemory, Op};

/// The operations of a job, seen as a list. It keeps the buffers that they name, each once, so that a turn of the job needn't read its
/// operations.
#[derive(Drop)]
pub struct Ops {
    list: ItemList<Op>,
    named: ItemList<BufId>,
}

impl Model for Ops {
    ghost use Rattle.std.specs.Prelude.{◌≡◌, List, [], flat_map};
    ghost use Rattle.ttm_base.specs.declared.Op.{Op};
    ghost use Rattle.journal_model.specs.rules.Mentions.{buffers_of_op, first_mentions};

    ghost Value = { List Op };

    ghost view = { λ s. s.list };

    ghost invariant = { λ s. s.named ≡ first_mentions [] (flat_map buffers_of_op s.list) };
}

/// Returns whether `a` and `b` are the same buffer.
pub fn same_buffer(a: BufId, b: BufId) -> bool
    ensures { result ≡ words.same_buffer a b }
{
    a.0 == b.0
}

/// Returns whether the buffer `b` is in the list.
pub fn has_buffer(bs: &[BufId], b: BufId) -> bool
    ensures { result ≡ words.has_buffer bs.now b }
{
    bs.iter().any(|c| same_buffer(b, *c))
}

/// Returns the buffers of an operation, in the order in which they are mentioned.
fn buffers_of(op: Op) -> (BufId, Option<BufId>)
    ensures { result.0 ∷ option_to_list result.1 ≡ buffers_of_op op }
{
    match op {
        Op::Fill { dst, .. } => (dst, None),
        Op::Copy { dst, src, .. } | Op::Xor { dst, src, .. } => (dst, Some(src)),
        Op::Probe { src, .. } => (src, None),
    }
}

/// Adds the buffer `b` to `named`, unless it is there. Where memory is refused nothing is changed.
fn add_buffer(named: &mut ItemList<BufId>, b: BufId) -> Result<(), NoMemory>
    ensures ok { OnOk result (named.new ≡ with_buffer named.old b) }
    ensures err { OnErr result (named.new ≡ named.old) }
{
    if has_buffer(named.items(), b) {
        Ok(())
    } else {
        named.push(b)
    }
}

/// Adds the buffers of `op` to `named`, except those that are there. Where memory is refused nothing is changed.
fn add_buffers(named: &mut ItemList<BufId>, op: Op) -> Result<(), NoMemory>
    ensures ok { OnOk result (named.new ≡ with_buffers named.old (buffers_of_op op)) }
    ensures err { OnErr result (named.new ≡ named.old) }
{
    let count = named.len();
    let (first, second) = buffers_of(op);
    add_buffer(named, first)?;
    match second {
        Some(b) => match add_buffer(named, b) {
            Ok(()) => Ok(()),
            Err(NoMemory) => {
                named.truncate(count);
                Err(NoMemory)
            }
        },
        None => Ok(()),
    }
}

impl Ops {
    /// Makes a job without operations.
    pub fn new(alloc: Global) -> Ops
        ensures { result ≡ [] }
    {
        Ops {
            list: ItemList::new(alloc),
            named: ItemList::new(alloc),
        }
    }

    /// Adds `op` at the end.
    ///
    /// # Errors
    ///
    /// Lack of memory; nothing is changed.
    pub fn push(&mut self, op: Op) -> Result<(), NoMemory>
        ensures ok { OnOk result (self.new ≡ self.old ++ op ∷ []) }
        ensures err { OnErr result (self.new ≡ self.old) }
    {
        let count = self.named.len();
        add_buffers(&mut self.named, op)?;
        match self.list.push(op) {
            Ok(()) => Ok(()),
            Err(NoMemory) => {
                self.named.truncate(count);
                Err(NoMemory)
            }
        }
    }

    /// Returns the number of operations.
    pub fn len(&self) -> usize
        ensures { result ≡ length self.now }
    {
        self.list.len()
    }

    /// Lends the operations, in order.
    pub fn items(&self) -> &[Op]
        ensures { result.now ≡ self.now }
    {
        self.list.items()
    }

    /// Lends the buffers that the operations name, each once, in the order of the first mention. Takes constant time.
    pub fn named(&self) -> &[BufId]
        ensures { result.now ≡ first_mentions [] (flat_map buffers_of_op self.now) }
    {
        self.named.items()
    }
}
