ghost use Rattle.std.specs.Prelude.{◌≡◌, ◌++◌, map, IfOk, OnOk};
ghost use Rattle.act1_base.specs.Words.{text_line, text_of_lines};
ghost use Rattle.act1_table.specs.Forms.{line_words};
ghost use Rattle.act1_job.specs.Lines as lines;
ghost use Rattle.act1_job.specs.Lines.{job_table, given_of, job_text};
ghost use Rattle.act1_job.specs.WriteSteps.{head_words, track_words, connection_words};
ghost use Rattle.act1_job.specs.declared.line.JobLine.TheVariants.{Header, Budget};

use crate::table::{BUDGET, COLUMNS, CONNECTION, END, HEADER, K, TRACK, job_table};
use act1_base::{Items, Memory};
use act1_channel::{Connection, Problem};
use act1_table::{LineGiven, write_line};
use std::alloc::Global;

// The line of a word and these numbers.
fn numbers_line(alloc: Global, form: usize, numbers: &[u8]) -> Result<LineGiven, Memory>
    ensures { IfOk result (λ line. line ≡ lines.numbers_line form numbers.now) }
{
    let mut line = LineGiven::new(alloc, form);
    line.add_fixed(alloc)?;
    for n in numbers {
        line.add_number(alloc, u64::from(*n))?;
    }
    Ok(line)
}

// The first line.
fn header_line(alloc: Global) -> Result<LineGiven, Memory>
    ensures { IfOk result (λ line. line ≡ given_of Header) }
{
    let mut line = LineGiven::new(alloc, HEADER);
    line.add_fixed(alloc)?;
    line.add_fixed(alloc)?;
    line.add_fixed(alloc)?;
    Ok(line)
}

// The line of the budget.
fn budget_line(alloc: Global, budget: u64) -> Result<LineGiven, Memory>
    ensures { IfOk result (λ line. line ≡ given_of (Budget budget)) }
{
    let mut line = LineGiven::new(alloc, BUDGET);
    line.add_fixed(alloc)?;
    line.add_number(alloc, budget)?;
    Ok(line)
}

// Adds the line with its line feed.
fn write_given(text: &mut Vec<u8>, given: &LineGiven) -> Result<(), Memory>
    ensures { OnOk result (text.new.items ≡ text.old.items ++ text_line (line_words job_table given.now)) }
{
    write_line(text, job_table(), given)?;
    text.push(b'\n')?;
    Ok(())
}

// Adds the line of a word and these numbers.
fn write_numbers(
    alloc: Global,
    text: &mut Vec<u8>,
    form: usize,
    numbers: &[u8],
) -> Result<(), Memory>
    ensures { OnOk result (text.new.items ≡ text.old.items ++ text_line (line_words job_table (lines.numbers_line form numbers.now))) }
{
    let given = numbers_line(alloc, form, numbers)?;
    write_given(text, &given)
}

// Adds the lines of the tracks.
#[tactic(auto, using(act1_base::proofs::TextGrows::text_more))]
fn write_tracks(alloc: Global, text: &mut Vec<u8>, tracks: &[Items<u8>]) -> Result<(), Memory>
    ensures { OnOk result (text.new.items ≡ text.old.items ++ text_of_lines (map track_words tracks.now)) }
{
    for breaks in tracks {
        write_numbers(alloc, text, TRACK, breaks.as_slice())?;
    }
    Ok(())
}

// Adds the line of a connection.
fn write_connection(alloc: Global, text: &mut Vec<u8>, connection: Connection) -> Result<(), Memory>
    ensures { OnOk result (text.new.items ≡ text.old.items ++ text_line (connection_words connection)) }
{
    write_numbers(
        alloc,
        text,
        CONNECTION,
        &[connection.left, connection.right],
    )
}

// Adds the lines of the connections.
#[tactic(auto, using(act1_base::proofs::TextGrows::text_more))]
fn write_connections(
    alloc: Global,
    text: &mut Vec<u8>,
    connections: &[Connection],
) -> Result<(), Memory>
    ensures { OnOk result (text.new.items ≡ text.old.items ++ text_of_lines (map connection_words connections.now)) }
{
    for connection in connections {
        write_connection(alloc, text, *connection)?;
    }
    Ok(())
}

// Adds the lines up to the budget.
fn write_head(
    alloc: Global,
    text: &mut Vec<u8>,
    problem: &Problem,
    budget: u64,
) -> Result<(), Memory>
    ensures { OnOk result (text.new.items ≡ text.old.items ++ text_of_lines (head_words problem.now.columns problem.now.k budget)) }
{
    let header = header_line(alloc)?;
    write_given(text, &header)?;
    write_numbers(alloc, text, COLUMNS, &[problem.columns])?;
    write_numbers(alloc, text, K, &[problem.k])?;
    let line = budget_line(alloc, budget)?;
    write_given(text, &line)
}

/// The one text of a job: `act1 job 1`, `columns COLUMNS`, `k K`, `budget BUDGET`, for each track `track` and its
/// breaks, for each connection `connection LEFT RIGHT`, and `end`, each a line of words that are parted by one
/// space. Numbers are spelled by decimal digits without a leading zero.
pub fn job_text(alloc: Global, problem: &Problem, budget: u64) -> Result<Vec<u8>, Memory>
    ensures { IfOk result (λ text. text.items ≡ job_text (record { problem = problem.now; budget = budget })) }
{
    let mut text = Vec::new(alloc);
    write_head(alloc, &mut text, problem, budget)?;
    write_tracks(alloc, &mut text, problem.tracks.as_slice())?;
    write_connections(alloc, &mut text, problem.connections.as_slice())?;
    write_numbers(alloc, &mut text, END, &[])?;
    Ok(text)
}
