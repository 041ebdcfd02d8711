/// Why no job was read.
#[derive(Clone, Copy, Drop)]
pub enum JobFault {
    /// The bytes are no text of a job. The number is that of the first faulty line, from 1: the first that lacks
    /// its line feed or with which the lines up to it begin no such text, or the line after the last, where the
    /// text is cut.
    Line(u32),
    /// The call found no memory.
    Memory,
}
