use crate::fault::Fault;
use crate::text::{read_text, read_word};
use act1_base::read_number;
use std::alloc::Global;
use std::collections::BTreeMap;
use std::fs;
use std::io::Read;
use std::rt::Files;

// A file of the data folder has at most so many bytes.
const MOST_BYTES: u64 = 1 << 20;

// No number of a line of rows is greater.
const MOST: u64 = 1 << 30;

/// What is run: words, files, and calls that are to fail.
#[derive(Drop)]
pub struct Setting {
    alloc: Global,
    /// The words.
    pub words: Vec<String>,
    /// The files, by their names.
    pub files: BTreeMap<String, Vec<u8>>,
    /// The numbers of the calls of the files that are to fail.
    pub failing_files: Vec<u64>,
    /// The numbers of the calls of the files that are to fail, each with how many bytes it leaves of what it writes.
    pub torn_writes: Vec<(u64, u64)>,
    /// The numbers of the calls of what is printed to that are to fail.
    pub failing_prints: Vec<u64>,
    /// The answers of helpers, in the order of their starts.
    pub answers: Vec<Vec<u8>>,
    /// The numbers of the calls of helpers that are to fail.
    pub failing_helpers: Vec<u64>,
    // The name of the file that was named last.
    last: String,
}

/// The bytes of a file of the data folder. `Data` where it can't be read.
pub fn data_file<R: Files>(rt: &R, alloc: Global, path: &str) -> Result<Vec<u8>, Fault> {
    let Ok(file) = fs::open(rt, path) else {
        return Err(Fault::Data);
    };
    let mut bytes = Vec::new(alloc);
    match file.take(MOST_BYTES).read_to_end(&mut bytes) {
        Ok(_) => Ok(bytes),
        Err(_) => Err(Fault::Data),
    }
}

// A number that a word spells.
fn number(word: &str) -> Result<u64, Fault> {
    match read_number(word.as_bytes(), MOST) {
        Ok(number) => Ok(number),
        Err(_) => Err(Fault::Number),
    }
}

// The first word of a text, and what stands behind the blank after it.
fn first_word(text: &str) -> (&str, &str) {
    match text.split_once(' ') {
        Some(parts) => parts,
        None => (text, ""),
    }
}

// The word that a word of rows stands for.
fn word_of(alloc: Global, word: &str) -> Result<String, Fault> {
    let mut bytes = Vec::new(alloc);
    read_word(word, &mut bytes)?;
    match String::from_utf8(bytes) {
        Ok(word) => Ok(word),
        Err(_) => Err(Fault::Form),
    }
}

// The bytes that a word stands for, so many times.
fn repeated(alloc: Global, count: u64, word: &str) -> Result<Vec<u8>, Fault> {
    let mut piece = Vec::new(alloc);
    read_word(word, &mut piece)?;
    let mut bytes = Vec::new(alloc);
    for _ in 0..count {
        bytes.extend_from_slice(&piece)?;
    }
    Ok(bytes)
}

// The bytes with another text in the place of a line.
fn with_line(alloc: Global, bytes: &[u8], line: u64, text: &[u8]) -> Result<Vec<u8>, Fault> {
    let mut edited = Vec::new(alloc);
    let mut is_found = false;
    for (number, own) in (1u64..).zip(bytes.split_inclusive(|byte| *byte == b'\n')) {
        if number == line {
            is_found = true;
            edited.extend_from_slice(text)?;
        } else {
            edited.extend_from_slice(own)?;
        }
    }
    if is_found {
        Ok(edited)
    } else {
        Err(Fault::Number)
    }
}

impl Setting {
    /// No words, no files, and no call that is to fail.
    pub fn new(alloc: Global) -> Setting {
        Setting {
            alloc,
            words: Vec::new(alloc),
            files: BTreeMap::new(alloc),
            failing_files: Vec::new(alloc),
            torn_writes: Vec::new(alloc),
            failing_prints: Vec::new(alloc),
            answers: Vec::new(alloc),
            failing_helpers: Vec::new(alloc),
            last: String::new(alloc),
        }
    }

    /// Does what a line says. `Form` where it is no line of rows, and the other faults where a part of it
    /// is at fault.
    pub fn take_line<R: Files>(&mut self, rt: &R, line: &str) -> Result<(), Fault> {
        let (word, rest) = first_word(line);
        match word {
            "words" => self.take_words(rest),
            "file" => self.take_file(rt, rest),
            "then" => self.add_to_last(rt, rest),
            "line" => self.edit_line(rest),
            "cut" => self.cut_last(rest),
            "fail" => self.fail(rest),
            "tear" => self.tear(rest),
            "answer" => self.take_answer(rest),
            _ => Err(Fault::Form),
        }
    }

    // Takes the words.
    fn take_words(&mut self, words: &str) -> Result<(), Fault> {
        self.words.clear();
        if words.is_empty() {
            return Ok(());
        }
        for word in words.split(' ') {
            let word = word_of(self.alloc, word)?;
            self.words.push(word)?;
        }
        Ok(())
    }

    // Takes a file: its name, and its content.
    fn take_file<R: Files>(&mut self, rt: &R, words: &str) -> Result<(), Fault> {
        let (name, content) = first_word(words);
        let bytes = self.content(rt, content)?;
        self.last = String::from_str(self.alloc, name)?;
        self.set_file(name, &bytes)
    }

    /// Lets the file of this name hold these bytes.
    pub fn set_file(&mut self, name: &str, bytes: &[u8]) -> Result<(), Fault> {
        let name = String::from_str(self.alloc, name)?;
        let bytes = Vec::from_slice(self.alloc, bytes)?;
        self.files.insert(name, bytes)?;
        Ok(())
    }

    // Adds content to the last file.
    fn add_to_last<R: Files>(&mut self, rt: &R, content: &str) -> Result<(), Fault> {
        let more = self.content(rt, content)?;
        let Some(bytes) = self.files.get_mut(self.last.as_str()) else {
            return Err(Fault::File);
        };
        bytes.extend_from_slice(&more)?;
        Ok(())
    }

    // The content that words speak of: of which kind it is, and what it is.
    fn content<R: Files>(&self, rt: &R, words: &str) -> Result<Vec<u8>, Fault> {
        let (kind, rest) = first_word(words);
        match kind {
            "holds" => self.bytes_of(rest),
            "copies" => data_file(rt, self.alloc, rest),
            "repeats" => {
                let (count, piece) = first_word(rest);
                repeated(self.alloc, number(count)?, piece)
            }
            _ => Err(Fault::Form),
        }
    }

    // The bytes that a text stands for.
    fn bytes_of(&self, text: &str) -> Result<Vec<u8>, Fault> {
        let mut bytes = Vec::new(self.alloc);
        read_text(text, &mut bytes)?;
        Ok(bytes)
    }

    // Edits a line of the last file: its number, and what becomes of it.
    fn edit_line(&mut self, words: &str) -> Result<(), Fault> {
        let (line, rest) = first_word(words);
        let text = match first_word(rest) {
            ("becomes", text) => self.bytes_of(text)?,
            ("goes", "") => Vec::new(self.alloc),
            _ => return Err(Fault::Form),
        };
        let Some(bytes) = self.files.get_mut(self.last.as_str()) else {
            return Err(Fault::File);
        };
        *bytes = with_line(self.alloc, bytes.as_slice(), number(line)?, &text)?;
        Ok(())
    }

    // Ends the last file after so many bytes.
    fn cut_last(&mut self, count: &str) -> Result<(), Fault> {
        let Some(bytes) = self.files.get_mut(self.last.as_str()) else {
            return Err(Fault::File);
        };
        bytes.truncate(number(count)? as usize);
        Ok(())
    }

    // Lists a call that is to fail.
    fn fail(&mut self, words: &str) -> Result<(), Fault> {
        let (object, call) = first_word(words);
        let call = number(call)?;
        match object {
            "files" => self.failing_files.push(call)?,
            "print" => self.failing_prints.push(call)?,
            "helpers" => self.failing_helpers.push(call)?,
            _ => return Err(Fault::Form),
        }
        Ok(())
    }

    // Lists a call of the files that is to fail, and how many bytes it leaves.
    fn tear(&mut self, words: &str) -> Result<(), Fault> {
        let (call, left) = first_word(words);
        let call = number(call)?;
        let left = number(left)?;
        self.torn_writes.push((call, left))?;
        Ok(())
    }

    // Takes the answer of one helper more.
    fn take_answer(&mut self, text: &str) -> Result<(), Fault> {
        let bytes = self.bytes_of(text)?;
        self.answers.push(bytes)?;
        Ok(())
    }
}
