//! A script by its items: each thread as the list of its lines, in which a mark has its own line or says how the command below is
//! written. Text and rules of a script with marks, told by these lists.
