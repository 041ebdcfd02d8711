//! The logic module of the array, tables, and the covers of a netlist, with their values.
#![tactic(auto)]

mod cover;
mod laws;
mod marks;
mod module;
mod table;
mod value;

pub use cover::{Cover, Mark, Row};
pub use laws::on_sets_have_values;
pub use marks::Marks;
pub use module::module_value;
pub use table::Table;
pub use value::cover_value;
