use crate::plan::Plan;
use act1_base::Name;
use act1_circuit::{Output, Source, Spot, Start};

/// A line of the text of a plan.
#[derive(Drop)]
pub enum PlanLine {
    /// `device NAME`
    Device {
        /// The name of the device.
        name: Name,
    },
    /// `k K`
    K {
        /// The most segments of a track that a connection may occupy.
        k: u8,
    },
    /// `clock NAME`
    Clock {
        /// The name of the clock.
        name: Name,
    },
    /// `in NAME`
    Input {
        /// The name of the input.
        name: Name,
    },
    /// `out SOURCE NAME`
    Output {
        /// The output.
        output: Output,
    },
    /// `start MODULE INIT NAME`
    Start {
        /// The module that holds a latch.
        start: Start,
    },
    /// `module ROW COLUMN` and the sources of its pins
    Module {
        /// Where the module stands.
        spot: Spot,
        /// The sources of its pins.
        pins: [Source; 8],
    },
}

/// What the lines say so far, by the line that was read last.
#[derive(Drop)]
pub enum PlanState {
    /// There were none.
    Start,
    /// `device`.
    Device {
        /// The name of the device.
        name: Name,
    },
    /// `k`, or a line behind it.
    Body {
        /// The plan so far.
        plan: Plan,
    },
}
