//! Tests of address spaces: the steps of requests and what they leave, the parts of ranges of addresses, and jobs by name.

mod jobs;
mod requests;
