//! What holds of a queue's words in each phase, and of what the code of a queue keeps: definitions and
//! what each step leaves of them.
#![tactic(auto)]
