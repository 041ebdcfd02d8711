use crate::draft::Draft;
use act1_base::Items;
use act1_channel::Connection;

/// A line of the text of a job.
#[derive(Drop)]
pub enum JobLine {
    /// `act1 job 1`
    Header,
    /// `columns COLUMNS`
    Columns {
        /// The number of columns.
        columns: u8,
    },
    /// `k K`
    K {
        /// The most segments of a track that a connection may overlap.
        k: u8,
    },
    /// `budget BUDGET`
    Budget {
        /// The most conflicts.
        budget: u64,
    },
    /// `track BREAK ..`
    Track {
        /// Its breaks.
        breaks: Items<u8>,
    },
    /// `connection LEFT RIGHT`
    Connection {
        /// The columns that it spans.
        connection: Connection,
    },
    /// `end`
    End,
}

/// What the lines say so far, by the line that was read last.
#[derive(Drop)]
pub enum JobState {
    /// There were none.
    Start,
    /// The header.
    Header,
    /// `columns`.
    Columns {
        /// The number of columns.
        columns: u8,
    },
    /// `k`.
    K {
        /// The number of columns.
        columns: u8,
        /// The most segments.
        k: u8,
    },
    /// `budget`, a track or a connection.
    Body {
        /// The job with the tracks and connections so far.
        draft: Draft,
    },
    /// `end`.
    End {
        /// The job.
        draft: Draft,
    },
}
