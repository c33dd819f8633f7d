//! The law of jobs that are written with addresses: each means what its addresses mean.
ghost use Rattle.law_legal.specs.law_addresses.Addressed.{JobsMeanTheirAddresses};

/// Each job of a script that is written with addresses means them, through the address space of its thread at its line.
pub fn jobs_mean_their_addresses()
    ensures { JobsMeanTheirAddresses }
{}
