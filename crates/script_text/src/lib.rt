//! Reads the text of a script.
#![tactic(auto)]

ghost use Rattle.std.specs.Prelude.{◌≡◌, ◌≤◌, ℕ, ◌⊎◌, Some, None, Ok, Err, IfOk, IsOk, length};
ghost use Rattle.journal_model.specs.scripts.FirstFault.{script_of, first_fault, script_from, nothing_read};
ghost use Rattle.journal_model.specs.scripts.Cut.{lines_of};
ghost use Rattle.journal_model.specs.scripts.ScriptRules.{IsScript};
ghost use Rattle.law_legal.specs.law_addresses.Addressed.{JobsMeanAddresses};
ghost use Rattle.script_text.specs.Steps.{Gives};

use journal_model::Script;
use script_rules::script_mappings::ThreadMappings;
use script_words::cut::{Words, cut_shown_into};
use script_words::names::Names;
use std::alloc::Global;
use ttm_base::NoMemory;
use ttm_base::limits::MAX_SCRIPT_BYTES;

mod marks;
mod reader;
mod values;

use crate::reader::{Known, does_end_at, is_done, start, take_words};

/// The reason why bytes weren't read: their first broken line, counted from 1, and on it the least broken rule; or memory ran out. Line 0
/// is the whole text, where it has more than 1,048,576 bytes (rule 1).
#[derive(Clone, Copy, Debug, PartialEq, Eq)]
pub enum ScriptFault {
    Bad { line: u32, rule: u32 },
    NoMemory,
}

fn read_lines(alloc: Global, bytes: &[u8]) -> Result<Script, ScriptFault>
    requires { length bytes.now ≤ 1048576 }
    ensures { Gives result (script_from nothing_read 0 (lines_of bytes.now)) }
{
    let mut known = Known {
        names: Names::new(alloc),
        thread_mappings: ThreadMappings::new(alloc),
    };
    let mut progress = start(alloc);
    let mut words = Words::new(alloc);
    let mut line = 0;
    let mut rest = bytes;
    while !rest.is_empty() {
        let Ok(len) = cut_shown_into(&mut words, rest) else {
            return Err(ScriptFault::NoMemory);
        };
        line += 1;
        if !does_end_at(rest, len) {
            return Err(ScriptFault::Bad { line, rule: 2 });
        }
        let (_, after) = rest.split_at(len + 1);
        match take_words(alloc, &mut known, &mut progress, words.items()) {
            Ok(None) => rest = after,
            Ok(Some(rule)) => return Err(ScriptFault::Bad { line, rule }),
            Err(NoMemory) => return Err(ScriptFault::NoMemory),
        }
    }
    if is_done(progress.phase) {
        Ok(progress.script)
    } else {
        Err(ScriptFault::Bad {
            line: line + 1,
            rule: 3,
        })
    }
}

fn read_all(alloc: Global, bytes: &[u8]) -> Result<Script, ScriptFault>
    ensures { Gives result (script_of bytes.now) }
{
    if bytes.len() > MAX_SCRIPT_BYTES {
        return Err(ScriptFault::Bad { line: 0, rule: 1 });
    }
    read_lines(alloc, bytes)
}

/// Reads `bytes` as a script, or returns its first broken line and on it the least broken rule.
pub fn read_script(alloc: Global, bytes: &[u8]) -> Result<Script, ScriptFault>
    // What is read is what the lines say, and the bytes are its spelling.
    ensures ok { IfOk result (λ script. script_of bytes.now ≡ Ok script) }
    ensures spelled { IfOk result (λ script. IsScript bytes.now script) }
    // Each job that is written with addresses means them, through the address space of its thread at its line.
    ensures means { IfOk result JobsMeanAddresses }
    // The spelling of a script is read, unless memory runs out.
    ensures reads { (script : Script) → IsScript bytes.now script → (result ≡ Ok script) ⊎ (result ≡ Err ScriptFault.NoMemory) }
    // A fault is the first one, and on its line the least; then the bytes are the spelling of no script.
    ensures bad { (line rule : ℕ) → result ≡ Err (ScriptFault.Bad line rule) → first_fault bytes.now ≡ Some (line, rule) }
    ensures no_script { (line rule : ℕ) (script : Script) → result ≡ Err (ScriptFault.Bad line rule) → ¬ IsScript bytes.now script }
    // Bytes with a fault aren't read, unless memory runs out first.
    ensures found { (line rule : ℕ) → first_fault bytes.now ≡ Some (line, rule)
        → (result ≡ Err (ScriptFault.Bad line rule)) ⊎ (result ≡ Err ScriptFault.NoMemory) }
    // Bytes with no fault are read, unless memory runs out.
    ensures only { first_fault bytes.now ≡ None → IsOk result ⊎ (result ≡ Err ScriptFault.NoMemory) }
{
    read_all(alloc, bytes)
}
