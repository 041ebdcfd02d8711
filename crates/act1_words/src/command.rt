use act1_frame::Word;

/// The words of `flow DEVICE BLIF FUSES REPORT [--k N] [--budget N] [--seed N] [--jobs N] [--with PROGRAM]`.
#[derive(Debug, Drop)]
pub struct FlowWords {
    /// The device file.
    pub device: Word,
    /// The netlist.
    pub blif: Word,
    /// The antifuse file, which is written at status 0.
    pub fuses: Word,
    /// The report, which is written at status 10.
    pub report: Word,
    /// The most segments that a connection takes on its track, 1 to 64; 3 where the words don't say it.
    pub k: u64,
    /// The most conflicts of the search of a channel, 1 to 1,000,000,000,000; 100,000 where the words don't say
    /// it.
    pub budget: u64,
    /// What the random start of the placement is made from; 0 where the words don't say it.
    pub seed: u64,
    /// The most helpers that work at a time, 0 to 64; 0 where the words don't say it.
    pub jobs: u64,
    /// The helpers' program; empty where the words don't name it.
    pub program: Word,
}

/// The words of `sim DEVICE FUSES VECTORS [--fill N]`.
#[derive(Debug, Drop)]
pub struct SimWords {
    /// The device file.
    pub device: Word,
    /// The antifuse file.
    pub fuses: Word,
    /// The input vectors.
    pub vectors: Word,
    /// The value with which a module without a declared start begins: true for `--fill 1`; false where the words
    /// don't say it.
    pub fill: bool,
}

/// The words of `extract DEVICE FUSES BLIF`.
#[derive(Debug, Drop)]
pub struct ExtractWords {
    /// The device file.
    pub device: Word,
    /// The antifuse file.
    pub fuses: Word,
    /// The netlist, which is written at status 0.
    pub blif: Word,
}

/// The words of `check DEVICE REPORT`.
#[derive(Debug, Drop)]
pub struct CheckWords {
    /// The device file.
    pub device: Word,
    /// The report.
    pub report: Word,
}

/// The words of `search JOB ANSWER`.
#[derive(Debug, Drop)]
pub struct SearchWords {
    /// The job.
    pub job: Word,
    /// The answer, which is written.
    pub answer: Word,
}

/// The words of `blif BLIF`.
#[derive(Debug, Drop)]
pub struct BlifWords {
    /// The netlist.
    pub blif: Word,
}

/// The words of `cover BLIF`.
#[derive(Debug, Drop)]
pub struct CoverWords {
    /// The netlist.
    pub blif: Word,
}

/// The words of `demo DEVICE N FUSES`.
#[derive(Debug, Drop)]
pub struct DemoWords {
    /// The device file.
    pub device: Word,
    /// How many bits the counter has, 1 to 64.
    pub bits: u64,
    /// The antifuse file, which is written at status 0.
    pub fuses: Word,
}

/// What the words ask for.
#[derive(Debug, Drop)]
pub enum Command {
    /// The words are no command, or one that isn't built yet.
    Unknown,
    /// Takes a netlist to an antifuse file for a device.
    Flow(FlowWords),
    /// Simulates the array of an antifuse file over vectors. It writes no file.
    Sim(SimWords),
    /// Writes the netlist that the array of an antifuse file is.
    Extract(ExtractWords),
    /// Checks a report: that a channel of its plan has no assignment. It writes no file.
    Check(CheckWords),
    /// Searches tracks for the connections of a channel, and writes the answer.
    Search(SearchWords),
    /// Prints the least covers of a netlist's nodes. It writes no file.
    Cover(CoverWords),
    /// Prints the canonical text of a netlist. It writes no file.
    Blif(BlifWords),
    /// Takes a counter to an antifuse file for a device, and prints what it shows.
    Demo(DemoWords),
}
