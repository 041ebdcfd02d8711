use std::alloc::{AllocError, Global};

/// A line of a file of rows, with its number from 1.
#[derive(Debug, Clone, Copy)]
pub struct NumberedLine<'a> {
    /// The number.
    pub number: u64,
    /// What stands in it.
    pub text: &'a str,
}

/// How much of an answer is shown.
#[derive(Clone, Copy, Debug, PartialEq, Eq)]
pub enum Shown {
    /// The status, what was printed, and the files that changed.
    Whole,
    /// The status and what was printed.
    Printed,
    /// The status.
    Status,
}

/// A row: the lines that say what is run, and how often it is run.
#[derive(Drop)]
pub struct Row<'a> {
    /// The row's name.
    pub name: &'a str,
    /// The lines that say what is run.
    pub lines: Vec<NumberedLine<'a>>,
    /// The cases, if the row is run once for each.
    pub cases: Vec<&'a str>,
    /// The file each of whose fronts the row is run on.
    pub cuts: Option<&'a str>,
    /// How much of each answer is shown.
    pub shown: Shown,
}

/// The rows of a file, and the lines before the first.
#[derive(Drop)]
pub struct Rows<'a> {
    /// The lines that hold for every row.
    pub head: Vec<NumberedLine<'a>>,
    /// The rows.
    pub rows: Vec<Row<'a>>,
}

impl<'a> Row<'a> {
    // A row without lines.
    fn new(alloc: Global, name: &'a str) -> Row<'a> {
        Row {
            name,
            lines: Vec::new(alloc),
            cases: Vec::new(alloc),
            cuts: None,
            shown: Shown::Whole,
        }
    }

    // Adds a line to the row.
    fn add(&mut self, line: NumberedLine<'a>) -> Result<(), AllocError> {
        if let Some(case) = line.text.strip_prefix("case ") {
            self.cases.push(case)?;
        } else if let Some(name) = line.text.strip_prefix("cuts ") {
            self.cuts = Some(name);
        } else if line.text == "statuses" {
            self.shown = Shown::Status;
        } else if line.text == "printed" {
            self.shown = Shown::Printed;
        } else {
            self.lines.push(line)?;
        }
        Ok(())
    }
}

/// The rows of a text. The error is want of memory.
pub fn read_rows(alloc: Global, text: &str) -> Result<Rows<'_>, AllocError> {
    let mut head = Vec::new(alloc);
    let mut rows: Vec<Row<'_>> = Vec::new(alloc);
    for (number, text) in (1u64..).zip(text.lines()) {
        if text.is_empty() || text.starts_with('#') {
            continue;
        }
        let line = NumberedLine { number, text };
        if let Some(name) = text.strip_prefix("row ") {
            rows.push(Row::new(alloc, name))?;
        } else if let Some(row) = rows.last_mut() {
            row.add(line)?;
        } else {
            head.push(line)?;
        }
    }
    Ok(Rows { head, rows })
}
