ghost use Rattle.std.specs.Prelude.{◌≡◌, ◌+◌, ◌<◌, ◌≤◌, ℕ, true, length, IfNone, IfSome};
ghost use Rattle.rules_choice.specs.Marks.{marked, IsOther};

/// The number of marks that are looked at at once.
const STRIDE: usize = 64;

/// Returns whether all of the 64 marks from `start` on are as `mark` says.
fn are_alike(marks: &[bool], mark: bool, start: usize) -> bool
    requires { start + 64 ≤ length marks.now }
    ensures { result ≡ true → (page : ℕ) → start ≤ page → page < start + 64 → marked marks.now page ≡ mark }
{
    let mut others: u32 = 0;
    for page in start..start + STRIDE {
        if marks[page] != mark {
            others += 1;
        }
    }
    others == 0
}

/// Returns a page up to which all marks from `start` on are as `mark` says. It looks at 64 at a time, and no further than `end`.
fn alike_to(marks: &[bool], mark: bool, start: usize, end: usize) -> usize
    requires from { start ≤ end }
    requires within { end ≤ length marks.now }
    ensures from { start ≤ result }
    ensures to { result ≤ end }
    ensures alike { (page : ℕ) → start ≤ page → page < result → marked marks.now page ≡ mark }
{
    let mut page = start;
    while end - page >= STRIDE && are_alike(marks, mark, page) {
        page += STRIDE;
    }
    page
}

/// Returns the first page from `start` on and below `end` whose mark isn't as `mark` says, or `None` if there is none.
pub fn first_other(marks: &[bool], mark: bool, start: usize, end: usize) -> Option<usize>
    requires from { start ≤ end }
    requires within { end ≤ length marks.now }
    ensures some { IfSome result (IsOther marks.now mark start end) }
    ensures none { IfNone result ((page : ℕ) → start ≤ page → page < end → marked marks.now page ≡ mark) }
{
    for page in alike_to(marks, mark, start, end)..end {
        if marks[page] != mark {
            return Some(page);
        }
    }
    None
}
