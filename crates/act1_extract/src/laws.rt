ghost use Rattle.act1_extract.specs.Laws.{FormedAreExtracted, NeverBoth};

use act1_circuit::forms_are_exact;
use act1_fuses::one_circuit;

/// The law of answers: no array whose file keeps the rules is both extracted and refused, but for want of memory. That
/// it is one of them is `extract`'s clause.
pub fn one_answer()
    ensures { NeverBoth }
{
    one_circuit();
    forms_are_exact();
    act1_array::one_answer();
}

/// The law of what is extracted: an array whose file keeps the rules, that is sound and whose circuit is in pair form and
/// has no output with the name of an input or a latch but another source is extracted, unless no memory is found.
pub fn formed_are_extracted()
    ensures { FormedAreExtracted }
{
    one_circuit();
    forms_are_exact();
    act1_array::one_answer();
}
