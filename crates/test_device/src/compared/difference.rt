use script_text::ScriptFault;
use std::io;
use ttm_base::NoMemory;

/// What the device on its parts, or the parts that are given the entries, do or have otherwise than the plain device.
#[derive(Clone, Copy)]
pub struct Difference {
    /// What differs, in words. If it has a number, these end with a space.
    pub what: &'static str,
    /// The number of what differs, if it has one.
    pub number: Option<u64>,
}

/// The reason why a case ends early.
#[derive(Clone, Copy)]
pub enum Stop {
    Differs(Difference),
    /// The text is no script.
    NoScript,
    NoMemory,
    /// A line can't be printed.
    NoOutput,
}

impl From<ScriptFault> for Stop {
    fn from(fault: ScriptFault) -> Stop {
        match fault {
            ScriptFault::Bad { .. } => Stop::NoScript,
            ScriptFault::NoMemory => Stop::NoMemory,
        }
    }
}

impl From<NoMemory> for Stop {
    fn from(_: NoMemory) -> Stop {
        Stop::NoMemory
    }
}

/// Is `Ok`, with whether there was a turn, only if what was to be told of it is printed.
pub fn printed(told: io::Result<()>, is_taken: bool) -> Result<bool, Stop> {
    match told {
        Ok(()) => Ok(is_taken),
        Err(_) => Err(Stop::NoOutput),
    }
}

/// Is `Ok` only if what both tell is the same, else names `what` differs.
pub fn agree(is_same: bool, what: &'static str) -> Result<(), Stop> {
    if is_same {
        Ok(())
    } else {
        Err(Stop::Differs(Difference { what, number: None }))
    }
}

/// Is `Ok` only if all `facts` are true. Of each, the words tell what differs if it isn't: the first such is named.
pub fn agree_all(facts: &[(bool, &'static str)]) -> Result<(), Stop> {
    for (is_same, what) in facts {
        if !*is_same {
            return agree(false, *what);
        }
    }
    Ok(())
}

/// Is `Ok` only if what both tell of the part numbered `number` is the same, else names `what` differs, with a space at the end.
pub fn agree_on(is_same: bool, what: &'static str, number: u64) -> Result<(), Stop> {
    if is_same {
        Ok(())
    } else {
        Err(Stop::Differs(Difference {
            what,
            number: Some(number),
        }))
    }
}
