//! Counts of how the pages, frames and slots of a memory manager are held, by its parts.
#![tactic(auto)]

ghost use Rattle.std.specs.Prelude.{◌≡◌};
ghost use Rattle.bo_table.specs.Seen.{body_of};
ghost use Rattle.journal_model.specs.rules.Legal.{state_of};
ghost use Rattle.page_accounts.specs.Accounts.{AreAccountsOf};
ghost use Rattle.page_accounts.specs.Counting.{with_where_live};
ghost use Rattle.room_representation.specs.Held.{AreHeld};

use bo_table::Bo;
use journal_model::{Entry, Script};
use page_accounts::Accounts;
use room_representation::Parts;
use ttm_base::BufId;

/// Counts what the buffer `bo` of the table holds, if it is live.
fn add_where_live(accounts: &mut Accounts, bo: &Bo)
    ensures { accounts.new ≡ with_where_live accounts.old (body_of bo.now) }
{
    if bo.alive {
        accounts.add_buffer(bo.mem, bo.spans.items(), bo.table.places(), &bo.targets);
    }
}

/// Counts how the pages, frames and slots of the parts are held. What nobody holds is free, since nothing is held twice. Costs time by the buffers,
/// their pages, and the ghosts; takes no memory.
pub fn accounts_of(parts: &Parts, script: &Script, before: &[Entry]) -> Accounts
    requires { AreHeld script.now before.now parts.now }
    ensures { AreAccountsOf script.now (state_of script.now before.now).core result }
{
    let many = script.buffers.len() as u32;
    let mut accounts = Accounts::new();
    for i in 0..many {
        add_where_live(&mut accounts, parts.bos.get(BufId(i)));
    }
    for holder in parts.ghosts.items() {
        accounts.add_ghost(
            holder.vram.items(),
            holder.tt.items(),
            holder.frames.items(),
        );
    }
    accounts.close(&script.sizes);
    accounts
}
