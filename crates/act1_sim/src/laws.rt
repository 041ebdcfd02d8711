ghost use Rattle.act1_sim.specs.Laws.{OneText, NeverBoth, OneRefusal};

/// The law of simulations: an array whose file keeps the rules, a text of vectors and a fill have at
/// most one answer, but for want of memory. Two texts that are both simulated are the same, none is
/// both simulated and refused, and two refusals are the same. That there is an answer is `simulate`'s
/// clause.
pub fn one_answer()
    ensures one_text { OneText }
    ensures never_both { NeverBoth }
    ensures one_refusal { OneRefusal }
{
    act1_array::one_answer();
}
