ghost use Rattle.act1_array.specs.Laws.{OneAnswer};

use act1_fuses::one_circuit;

/// The law of answers: an array whose file keeps the rules has at most one circuit or one refusal,
/// but for want of memory. That it has one of them is `circuit_of`'s clause.
pub fn one_answer()
    ensures { OneAnswer }
{
    one_circuit();
}
