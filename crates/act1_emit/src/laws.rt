ghost use Rattle.act1_emit.specs.File.{FilesRealize};

/// The law of emission: the antifuse file of a plan that has tracks keeps the rules of its device, its array
/// is sound, and the circuit of the array is the plan's.
pub fn files_realize()
    ensures { FilesRealize }
{}
