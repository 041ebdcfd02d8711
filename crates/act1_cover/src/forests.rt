ghost use Rattle.std.specs.Prelude.{◌≡◌, ◌+◌, ◌<◌, ◌^◌, IfOk, count_by};
ghost use Rattle.act1_logic.specs.Rows.{is_literal, literals_of};
ghost use Rattle.act1_cover.specs.Denotes.{HasValueOf, IsForestOfCover};
ghost use Rattle.act1_cover.specs.Least.{IsForest};

use crate::chain::forest_of_chain;
use crate::diagram::forest_of_diagram;
use crate::forest::Forest;
use act1_base::Memory;
use act1_dd::{DdFault, Diagrams};
use act1_logic::{Cover, Mark, Row};
use std::alloc::Global;

// How many literals some marks have.
fn literals_of_marks(marks: &[Mark]) -> usize
    ensures { result ≡ count_by is_literal marks.now }
{
    marks
        .iter()
        .filter(|mark| !matches!(**mark, Mark::Dash))
        .count()
}

// How many literals some rows have.
fn literals_of(rows: &[Row]) -> usize
    requires { literals_of rows.now < 2 ^ 32 }
    ensures { result ≡ literals_of rows.now }
{
    let mut count = 0;
    for row in rows {
        count += literals_of_marks(row.marks.as_slice());
    }
    count
}

/// The forest of a cover: its reduced ordered diagram in the order of the inputs, where for every number of
/// first rows the diagram of these rows has at most as many forks as the whole cover has literals, forks of
/// single inputs counted; and else its literal chain. Its value is the cover's. The choice between the two
/// is this project's own. The one error is `Memory`.
pub fn forest_of(alloc: Global, cover: &Cover) -> Result<Forest, Memory>
    ensures forest { IfOk result (IsForestOfCover cover.now) }
    ensures is_forest { IfOk result IsForest }
    ensures value { IfOk result (HasValueOf cover.now) }
{
    let mut diagrams = Diagrams::new(alloc);
    match diagrams.from_cover(cover, literals_of(cover.rows.as_slice())) {
        Ok(root) => forest_of_diagram(alloc, cover, &diagrams, root),
        Err(DdFault::Limit { rows: _ }) => forest_of_chain(alloc, cover),
        Err(DdFault::Memory) => Err(Memory),
    }
}
