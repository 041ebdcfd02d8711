ghost use Rattle.std.specs.Prelude.{◌≡◌, ◌<◌, ◌^◌, ◌++◌, length, IfOk, OnOk};
ghost use Rattle.act1_place.specs.Passes.{row_of, sites_of};
ghost use Rattle.act1_place.specs.Start.{shuffled, generator, start_of};

use act1_base::Memory;
use act1_circuit::Spot;
use rand_core::utils::NextWord;
use rand_pcg::Pcg32;
use std::alloc::Global;

// Puts the sites into the order of a seed.
fn shuffle(sites: &mut [Spot], seed: u64)
    requires few { length sites.old < 2 ^ 32 }
    ensures { sites.new ≡ shuffled (length sites.old) (generator seed) sites.old }
{
    let mut words = Pcg32::new(seed, 0);
    let mut left = sites.len();
    while left > 1 {
        left -= 1;
        let other = words.next_word() as usize % (left + 1);
        sites.swap(left, other);
    }
}

// Adds the sites of a row.
fn add_row(all: &mut Vec<Spot>, row: u8, columns: u8) -> Result<(), Memory>
    ensures { OnOk result (all.new.items ≡ all.old.items ++ row_of columns row) }
{
    for column in 0..columns {
        all.push(Spot { row, column })?;
    }
    Ok(())
}

/// The sites of so many rows and columns, by row and then column.
pub(crate) fn sites_of(alloc: Global, rows: u8, columns: u8) -> Result<Vec<Spot>, Memory>
    ensures { IfOk result (λ all. all.items ≡ sites_of rows columns) }
{
    let mut all = Vec::new(alloc);
    for row in 0..rows {
        add_row(&mut all, row, columns)?;
    }
    Ok(all)
}

/// Where so many modules start on the sites of so many rows and columns.
pub(crate) fn start_of(
    alloc: Global,
    rows: u8,
    columns: u8,
    count: usize,
    seed: u64,
) -> Result<Vec<Spot>, Memory>
    ensures { IfOk result (λ spots. spots.items ≡ start_of rows columns count seed) }
{
    let mut spots = sites_of(alloc, rows, columns)?;
    shuffle(spots.as_mut_slice(), seed);
    spots.truncate(count);
    Ok(spots)
}
