use crate::fuses::FuseFile;
use act1_base::{Items, Name};
use act1_device::Site;

/// The places of the kinds of lines among one another, in the order in which they stand in a file; 0 is before
/// the first line.
pub const HEADER: u8 = 1;

pub const DEVICE: u8 = 2;

pub const CLOCK: u8 = 3;

pub const IN: u8 = 4;

pub const OUT: u8 = 5;

pub const START: u8 = 6;

pub const FUSE: u8 = 7;

pub const END: u8 = 8;

/// A line of an antifuse file, as it is written. Its numbers may be of any length: one above 65,535
/// stands here as 65,536, since no device has anything of such a number.
#[derive(Drop)]
pub enum FuseLine {
    /// `act1 fuses 1`
    Header,
    /// `device NAME`
    Device {
        name: Name,
    },
    /// `clock NAME`
    Clock {
        name: Name,
    },
    /// `in PAD NAME`
    In {
        pad: u32,
        name: Name,
    },
    /// `out PAD NAME`
    Out {
        pad: u32,
        name: Name,
    },
    /// `start ROW COLUMN INIT NAME`
    Start {
        row: u32,
        column: u32,
        init: u8,
        name: Name,
    },
    /// An antifuse: the numbers that order it among others, and its site, or `None` where a number
    /// is beyond what a site of any device has.
    Fuse {
        numbers: Items<u32>,
        site: Option<Site>,
    },
    /// `end`
    End,
}

/// What the lines of an antifuse file say so far.
#[derive(Drop)]
pub struct FuseState {
    /// The place of the last line's kind among the kinds, which are numbered from 1 in the order in
    /// which they stand in a file; 0 before the first line.
    pub place: u8,
    /// The numbers that order the last start or antifuse, if the last line is one.
    pub last: Items<u32>,
    /// What the lines say.
    pub file: FuseFile,
}
