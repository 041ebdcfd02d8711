//! Forests of forks, and how few tiles cover them.
#![tactic(auto)]

mod best;
mod chain;
mod costs;
mod diagram;
mod forest;
mod forests;
mod laws;
mod least;
mod numbering;
mod roots;
mod text;
mod tile;
mod visit;

pub use forest::{Forest, Fork, Term};
pub use forests::forest_of;
pub use laws::{
    each_tile_is_read, forests_denote, least_is_few, no_three_no_seven, tiles_give_values,
};
pub use least::least_cover;
pub use text::cover_text;
pub use tile::{Shape, Tile, Tiles};
