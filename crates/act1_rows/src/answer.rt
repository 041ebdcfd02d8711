use crate::fault::Fault;
use crate::setting::Setting;
use crate::story::show_story;
use act1_base::HashSeed;
use act1_outside::{FakeHelpers, MemoryFiles, MemorySink};
use act1_top::run;
use std::alloc::Global;
use std::collections::BTreeSet;

/// A file that a run has changed or made.
#[derive(Drop)]
pub struct ChangedFile {
    /// Its name.
    pub name: String,
    /// What it holds, or `None` where it isn't there any more.
    pub bytes: Option<Vec<u8>>,
}

/// What a run answers, prints and writes.
#[derive(Drop)]
pub struct Answer {
    /// The status.
    pub status: u8,
    /// What was printed.
    pub printed: Vec<u8>,
    /// What helpers were asked for and what they answered, a line a call.
    pub story: String,
    /// The files that changed, by their names.
    pub changed: Vec<ChangedFile>,
}

// The files of a setting.
fn files_of(alloc: Global, setting: &Setting) -> Result<MemoryFiles, Fault> {
    let mut files = MemoryFiles::new(alloc);
    for (name, bytes) in &setting.files {
        files.set(name.as_str(), bytes.as_slice())?;
    }
    for call in &setting.failing_files {
        files.fail(*call)?;
    }
    for (call, left) in &setting.torn_writes {
        files.tear(*call, *left)?;
    }
    Ok(files)
}

// The names that a run may have changed: those of the files, and the words.
fn names_of(alloc: Global, setting: &Setting) -> Result<BTreeSet<String>, Fault> {
    let mut names = BTreeSet::new(alloc);
    for name in setting.files.keys() {
        names.insert(name.clone()?)?;
    }
    for word in &setting.words {
        names.insert(word.clone()?)?;
    }
    Ok(names)
}

// A file that holds something else than it held, or that isn't there any more.
fn change_of(alloc: Global, name: &str, after: Option<&[u8]>) -> Result<ChangedFile, Fault> {
    let bytes = match after {
        Some(bytes) => Some(Vec::from_slice(alloc, bytes)?),
        None => None,
    };
    let name = String::from_str(alloc, name)?;
    Ok(ChangedFile { name, bytes })
}

// The files that aren't as they were, by their names.
fn changed(
    alloc: Global,
    setting: &Setting,
    files: &MemoryFiles,
) -> Result<Vec<ChangedFile>, Fault> {
    let names = names_of(alloc, setting)?;
    let mut changed = Vec::new(alloc);
    for name in &names {
        let before = setting
            .files
            .get(name.as_str())
            .map(|bytes| bytes.as_slice());
        let after = files.held(name.as_str());
        if before != after {
            changed.push(change_of(alloc, name.as_str(), after)?)?;
        }
    }
    Ok(changed)
}

// The sink to which is printed, with the calls that are to fail.
fn sink_of(alloc: Global, setting: &Setting) -> Result<MemorySink, Fault> {
    let mut out = MemorySink::new(alloc);
    for call in &setting.failing_prints {
        out.fail(*call)?;
    }
    Ok(out)
}

// No answer of a helper has more bytes.
const MOST_BYTES: usize = 1 << 20;

// The helpers, with their answers and the calls that are to fail.
fn helpers_of(alloc: Global, setting: &Setting) -> Result<FakeHelpers, Fault> {
    let mut helpers = FakeHelpers::new(alloc);
    for answer in &setting.answers {
        if answer.len() > MOST_BYTES {
            return Err(Fault::Data);
        }
        helpers.answer(answer)?;
    }
    for call in &setting.failing_helpers {
        helpers.fail(*call)?;
    }
    Ok(helpers)
}

/// Runs the words of a setting on its files. The error is want of memory.
pub fn answer_of(alloc: Global, setting: &Setting) -> Result<Answer, Fault> {
    let mut files = files_of(alloc, setting)?;
    let mut out = sink_of(alloc, setting)?;
    let mut helpers = helpers_of(alloc, setting)?;
    let status = run(
        alloc,
        HashSeed::new([0; 16]),
        &setting.words,
        &mut files,
        &mut out,
        &mut helpers,
    );
    Ok(Answer {
        status,
        printed: Vec::from_slice(alloc, out.bytes())?,
        story: show_story(alloc, helpers.story())?,
        changed: changed(alloc, setting, &files)?,
    })
}
