ghost use Rattle.std.specs.Prelude.{◌≡◌, ◌<◌, ◌^◌, [], length};
ghost use Rattle.page_accounts.specs.Counting.{AreSmall, closed, closed_account, nothing, nothing_held, with_buffer, with_ghost, with_ghosts, with_held};

use crate::counts::{count_frames, count_pages, count_pages_in, count_slots, count_target};
use journal_model::{Sizes, Targets};
use ttm_base::{Loc, Mem, Span};

/// The numbers of pages, frames or slots that are free, and that are held by live buffers, by targets and by ghosts.
#[derive(Clone, Copy)]
pub struct Account {
    pub free: u64,
    pub live: u64,
    pub target: u64,
    pub ghosts: u64,
}

/// The accounts of VRAM, TT, frames and swap slots.
#[derive(Clone, Copy)]
pub struct Accounts {
    pub vram: Account,
    pub tt: Account,
    pub frames: Account,
    pub swap: Account,
}

impl Account {
    /// Returns an account that counts nothing.
    fn new() -> Account
        ensures { result ≡ nothing_held }
    {
        Account {
            free: 0,
            live: 0,
            target: 0,
            ghosts: 0,
        }
    }

    /// Adds what a live buffer holds, and what its target holds. Both counts saturate at `u64::MAX`.
    fn add_held(&mut self, live: u64, target: u64)
        ensures { self.new ≡ with_held self.old live target }
    {
        self.live = self.live.saturating_add(live);
        self.target = self.target.saturating_add(target);
    }

    /// Adds what a ghost holds. The count saturates at `u64::MAX`.
    fn add_ghosts(&mut self, count: u64)
        ensures { self.new ≡ with_ghosts self.old count }
    {
        self.ghosts = self.ghosts.saturating_add(count);
    }

    /// Closes the account: of `size` pages, frames or slots, those that are not held are free.
    fn close(&mut self, size: u32)
        ensures closed { self.new ≡ closed_account size self.old }
        ensures small { size < 2 ^ 32 }
    {
        let held = self
            .live
            .saturating_add(self.target)
            .saturating_add(self.ghosts);
        self.free = u64::from(size).saturating_sub(held);
    }
}

impl Accounts {
    /// Returns accounts that count nothing.
    pub fn new() -> Accounts
        ensures { result ≡ nothing }
    {
        Accounts {
            vram: Account::new(),
            tt: Account::new(),
            frames: Account::new(),
            swap: Account::new(),
        }
    }

    /// Adds what a live buffer in `mem` holds: the pages of `spans` there, those of its `targets`, and the frames and slots
    /// of its page `table`. Each count saturates at `u64::MAX`.
    pub fn add_buffer(&mut self, mem: Mem, spans: &[Span], table: &[Loc], targets: &Targets)
        ensures { self.new ≡ with_buffer self.old (record { mem = mem; spans = spans.now; table = table.now; targets = targets.now; fences = [] }) }
    {
        self.vram.add_held(
            count_pages_in(Mem::Vram, mem, spans),
            count_target(Mem::Vram, targets),
        );
        self.tt.add_held(
            count_pages_in(Mem::Tt, mem, spans),
            count_target(Mem::Tt, targets),
        );
        self.frames.add_held(count_frames(table), 0);
        self.swap.add_held(count_slots(table), 0);
    }

    /// Adds what a ghost holds: pages of VRAM and TT, and frames. Each count saturates at `u64::MAX`.
    pub fn add_ghost(&mut self, vram: &[Span], tt: &[Span], frames: &[u32])
        ensures { self.new ≡ with_ghost self.old vram.now tt.now (length frames.now) }
    {
        self.vram.add_ghosts(count_pages(vram));
        self.tt.add_ghosts(count_pages(tt));
        self.frames.add_ghosts(frames.len() as u64);
    }

    /// Closes the accounts: of the `sizes`, what is not held is free.
    pub fn close(&mut self, sizes: &Sizes)
        ensures closed { self.new ≡ closed sizes.now self.old }

        // The sizes have 32 bits, so accounts that make up the sizes didn't saturate.
        ensures small { AreSmall sizes.now }
    {
        self.vram.close(sizes.vram);
        self.tt.close(sizes.tt);
        self.frames.close(sizes.frames);
        self.swap.close(sizes.swap);
    }
}
