//! What holds of the plan of a circuit, whose modules stand at spots and are numbered in the order of these
//! spots: it means what the circuit means, it is legal where the circuit may be planned, and it is as stable
//! as the spots are.
#![tactic(auto)]

mod laws;

pub use laws::{
    clear_is_kept, form_is_kept, meaning_is_kept, placed_are_stable, plans_are_legal,
    ports_are_named, sources_are_kept, sums_are_kept,
};
