//! Laws of the journals that a correct node may have, and of worlds of correct nodes.
//!
//! - `growth_laws`: how a lawful journal grows, by a birth, by the next own update, and by what a node is given. So a
//!   node that appends what the definitions say keeps its journal lawful.
//! - `journals`: what holds of every lawful journal. Its own statements agree with each other, whoever contradicts
//!   himself in it is convicted, and nobody else's updates fork.
//! - `causality`: what holds of all correct nodes together. An update has one past everywhere, and what the nodes
//!   observe is fork-join causal, as the article defines it.
//! - `gossip`: what nodes send one another. Hellos and bundles have texts, and histories rejoin.
//! - `verdicts`: when a conviction is allowed, and that a fork or a step back leaves one.
//! - `receipts`: when a receipt is true and a put settled.
//! - `trimming`: what a reader may give up below a checkpoint.
//! - `audits`: when an audit of worlds and traces finds nothing.
//!
//! A law is a public function with an empty body, whose contract is the law. This crate computes nothing.
#![tactic(auto)]

mod audits;
mod causality;
mod gossip;
mod growth_laws;
mod journals;
mod receipts;
mod trimming;
mod verdicts;

pub use audits::{
    audits_look_at_writes_alone, audits_say_yes, causal_worlds_get_yes, closures_find_paths,
    exact_reads_pass, lawful_worlds_are_in_line, observed_is_observation, texts_have_one_fault,
    traces_get_yes, traces_have_one_finding, worlds_apart_are_ordered,
    writes_are_observed_by_parents,
};
pub use causality::{
    correct_nodes_make_a_world, fjc_law, own_puts_follow_all, own_puts_pass_everywhere,
    own_puts_stand_once, pasts_agree,
};
pub use gossip::{
    bundles_are_closed, bundles_fit_a_stream, feeds_keep_journals_lawful, feeds_take_frames,
    frames_are_told_at_once, hellos_have_a_text, rejoin_law,
};
pub use growth_laws::{
    a_birth_is_lawful, clocks_are_bounded, growth_keeps_journals_lawful,
    lawful_journals_are_causal, lawful_journals_go_by_records, leaves_are_few, own_puts_are_lawful,
    own_puts_have_a_text, own_vouchers_are_lawful, rooms,
};
pub use journals::{
    contrary_statements_convict, no_conviction_law, nobody_convicts_itself,
    unconvicted_writers_make_one_chain, writers_make_forests,
};
pub use receipts::{receipt_keys, receipts_speak_of_held_values, receipts_stay_true, settled_law};
pub use trimming::{
    contrary_statements_name, pruned_journals_answer_alike, superseded_updates_are_trimmed,
    trim_law, trimmed_updates_are_never_latest,
};
pub use verdicts::{
    convictions_are_verdicts, forks_and_steps_back_convict, hollow_proofs_are_for_no_update,
};
