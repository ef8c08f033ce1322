//! Lemmas that relate the changes of the layers to those of the rule table: if concrete lists show a world, the lists
//! after a call show the world after a rule. The crate has no code; proofs of the machine use its lemmas.
#![tactic(auto)]
