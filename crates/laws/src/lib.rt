//! Laws of legal journals: functions that do nothing, whose contract is the law, and the lemmas that they rest on.
#![tactic(auto)]

pub mod law_answers;
pub mod law_causes;
pub mod law_counters;
pub mod law_cutting;
pub mod law_end;
pub mod law_holders;
pub mod law_jobs;
pub mod law_limit;
pub mod law_lists;
pub mod law_marks;
pub mod law_over;
pub mod law_owners;
pub mod law_pieces;
pub mod law_search;
pub mod law_sound;
pub mod law_spares;
pub mod law_state;
pub mod law_step;
pub mod law_told;
pub mod law_transparent;
pub mod law_views;
pub mod lemma_bytes_arm;
pub mod lemma_bytes_model;
pub mod lemma_bytes_told;
pub mod lemma_bytes_view;
pub mod lemma_causes_trail;
pub mod lemma_end_measure;
pub mod lemma_end_searches;
pub mod lemma_end_ways;
