ghost use Rattle.std.specs.Prelude.{◌≡◌, [], ◌∷◌, IfOk, IfErr, IsTrue};
ghost use Rattle.std.specs.Fmt.{decimal};
ghost use Rattle.act1_job.specs.Jobs.{is_job};
ghost use Rattle.act1_frame.specs.Reading.{OnlyRead};
ghost use Rattle.act1_frame.specs.Stages.{OnStop};
ghost use Rattle.act1_top.specs.SearchCommand.{SearchEnds, SearchMayEnd, answer_ending, spent_ending, spent_text, verdict_ending};

use crate::found::job_under;
use act1_base::{Items, Memory, add_number, write_word};
use act1_frame::{Ending, FileText, Stop, Word};
use act1_job::Job;
use act1_logtext::{Answer, answer_text};
use act1_outside::Files;
use act1_search::{SearchStop, Verdict, search};
use act1_words::SearchWords;
use std::alloc::Global;

// What is printed of a search that is spent.
fn spent_text(alloc: Global, conflicts: u64) -> Result<Vec<u8>, Memory>
    ensures { IfOk result (λ text. text.items ≡ spent_text conflicts) }
{
    let mut text = Vec::new(alloc);
    text.extend_from_slice(b"spent")?;
    add_number(&mut text, conflicts)?;
    text.push(b'\n')?;
    Ok(text)
}

// The ending that writes the text of an answer under the name, and prints this.
fn answer_ending(
    alloc: Global,
    name: &Word,
    status: u8,
    text: Vec<u8>,
    answer: &Answer,
) -> Result<Ending, Memory>
    ensures { IfOk result (λ ending. ending ≡ answer_ending name.now status text.items answer.now) }
{
    let bytes = answer_text(alloc, answer)?;
    let file = FileText {
        name: Word::new(alloc, name.as_str())?,
        bytes: Items::from_vec(bytes),
    };
    Ok(Ending {
        status,
        text: Items::from_vec(text),
        file: Some(file),
    })
}

// The ending of a verdict.
fn verdict_ending(alloc: Global, name: &Word, verdict: Verdict) -> Result<Ending, Memory>
    ensures { IfOk result (λ ending. ending ≡ verdict_ending name.now verdict) }
{
    let mut text = Vec::new(alloc);
    match verdict {
        Verdict::Assigned(tracks) => {
            write_word(&mut text, b"assigned")?;
            answer_ending(alloc, name, 0, text, &Answer::Assigned(tracks))
        }
        Verdict::Refuted(log) => {
            write_word(&mut text, b"refuted")?;
            answer_ending(alloc, name, 10, text, &Answer::Refuted(log))
        }
    }
}

// The ending of a search that is spent.
fn spent_ending(alloc: Global, name: &Word, conflicts: u64) -> Result<Ending, Memory>
    ensures { IfOk result (λ ending. ending ≡ spent_ending name.now conflicts) }
{
    let text = spent_text(alloc, conflicts)?;
    answer_ending(alloc, name, 11, text, &Answer::Spent(conflicts))
}

// The search for a job.
fn search_ends(alloc: Global, name: &Word, job: &Job) -> Result<Ending, Stop>
    requires { IsTrue (is_job job.now) }
    ensures ok { IfOk result (SearchEnds name.now job.now) }
    ensures err { IfErr result (OnStop (SearchEnds name.now job.now)) }
{
    match search(alloc, &job.problem, job.budget) {
        Ok(verdict) => Ok(verdict_ending(alloc, name, verdict)?),
        Err(SearchStop::Spent { conflicts }) => Ok(spent_ending(alloc, name, conflicts)?),
        Err(SearchStop::Memory) => Err(Stop::Memory),
    }
}

/// The stages of `search` in their order.
pub fn search_ending<F: Files>(
    alloc: Global,
    files: &mut F,
    words: &SearchWords,
) -> Result<Ending, Stop>
    ensures ok { IfOk result (SearchMayEnd words.now (F.seen files.old) (F.seen files.new)) }
    ensures err { IfErr result (OnStop (SearchMayEnd words.now (F.seen files.old) (F.seen files.new))) }
    ensures files { OnlyRead (F.seen files.old) (F.seen files.new) }
{
    let job = job_under(alloc, files, &words.job)?;
    search_ends(alloc, &words.answer, &job)
}
