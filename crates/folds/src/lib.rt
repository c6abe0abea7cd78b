//! The recursions that loops are compared with stand in specs/, and what is known of them in proofs/. There is no code.
#![tactic(auto)]
