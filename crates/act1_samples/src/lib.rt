//! Worked examples against which the definitions of all crates are checked: netlists, devices, antifuse
//! files, circuits and what they mean. They stand in `proofs/`, and nothing stands on them.
#![tactic(auto)]
