/// Why no plan was read.
#[derive(Clone, Copy, Drop)]
pub enum PlanFault {
    /// The bytes are no text of a plan. The number is that of the first faulty line, from 1: the first that lacks
    /// its line feed or with which the lines up to it begin no such text, or the line after the last, where the
    /// text is cut.
    Line(u32),
    /// The call found no memory.
    Memory,
}
