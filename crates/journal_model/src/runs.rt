ghost use Rattle.std.specs.Prelude.{◌≡◌, ◌==◌, ◌<◌, ◌^◌, ◌++◌, ◌∷◌, [], Bool, IfNone, IfSome, IsTrue, List, OnOk, OnErr, flat_map, length};
ghost use Rattle.std.specs.List.{list_all};

use std::alloc::Global;
use std::marker::Model;
use ttm_base::{ItemList, NoMemory};

/// Some items that go on from one another, kept in a few words.
pub trait Run: Copy {
    /// An item of the run.
    type Item;

    /// The items, in order.
    ghost items: { Self → List Self.Item };

    /// The run may be kept in a list.
    ghost is_whole: { Self → Bool };

    /// Makes the run of `item` alone.
    fn of(item: Self::Item) -> Self
        ensures items { items result ≡ item ∷ [] }
        ensures whole { IsTrue (is_whole result) };

    /// Returns whether the run has no item.
    fn is_empty(self) -> bool
        ensures { result ≡ (length (items self) == 0) };

    /// Joins the run and `next` to one if `next` goes on from it, else returns `None`: then no run has the items of both, unless one of them
    /// is empty or they are 2^64 or more.
    fn joined(self, next: Self) -> Option<Self>
        requires { IsTrue (is_whole next) }
        ensures items { IfSome result (λ both. items both ≡ items self ++ items next) }
        ensures whole { IfSome result (λ both. IsTrue (is_whole both)) }
        ensures none { IfNone result ((both : Self) → 0 < length (items self) → 0 < length (items next) → length (items both) < 2 ^ 64 → items both ≡ items self ++ items next → ⊥) };
}

/// A list of items, kept by runs, since an item mostly goes on from the one before.
#[derive(Drop)]
pub struct Runs<R: Run> {
    pub(crate) runs: ItemList<R>,
}

impl<R: Run> Model for Runs<R> {
    ghost use Rattle.std.specs.Prelude.{List, IsTrue, flat_map};
    ghost use Rattle.std.specs.List.{list_all};

    ghost Value = { List R.Item };

    ghost view = { λ s. flat_map R.items s.runs };

    ghost invariant = { λ s. IsTrue (list_all R.is_whole s.runs) };
}

impl<R: Run> Runs<R> {
    /// Makes an empty list.
    pub fn new(alloc: Global) -> Runs<R>
        ensures { result ≡ [] }
    {
        Runs {
            runs: ItemList::new(alloc),
        }
    }

    /// Returns the runs, in order, each of them whole.
    pub fn runs(&self) -> &[R]
        ensures items { flat_map R.items result.now ≡ self.now }
        ensures whole { IsTrue (list_all R.is_whole result.now) }
    {
        self.runs.items()
    }

    /// Adds the items of `run` at the end.
    ///
    /// # Errors
    ///
    /// Lack of memory; nothing is changed.
    pub fn push_run(&mut self, run: R) -> Result<(), NoMemory>
        requires { IsTrue (R.is_whole run) }
        ensures ok { OnOk result (self.new ≡ self.old ++ R.items run) }
        ensures err { OnErr result (self.new ≡ self.old) }
    {
        if run.is_empty() {
            return Ok(());
        }
        if let Some(last) = self.runs.len().checked_sub(1) {
            if let Some(both) = self.runs.at(last).joined(run) {
                self.runs.set(last, both);
                return Ok(());
            }
        }
        self.runs.push(run)
    }

    /// Adds `item` at the end.
    ///
    /// # Errors
    ///
    /// Lack of memory; nothing is changed.
    pub fn push(&mut self, item: R::Item) -> Result<(), NoMemory>
        ensures ok { OnOk result (self.new ≡ self.old ++ item ∷ []) }
        ensures err { OnErr result (self.new ≡ self.old) }
    {
        self.push_run(R::of(item))
    }

    /// Adds the items of `more` at the end.
    ///
    /// # Errors
    ///
    /// Lack of memory; some of them may have been added.
    pub fn append(&mut self, more: &Runs<R>) -> Result<(), NoMemory>
        ensures { OnOk result (self.new ≡ self.old ++ more.now) }
    {
        for run in more.runs() {
            self.push_run(*run)?;
        }
        Ok(())
    }
}
