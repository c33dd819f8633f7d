//! How far each legal journal still has to go: a number that entries lower, its parts, and what the pages and targets of a buffer
//! count in it.
