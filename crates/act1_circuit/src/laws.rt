ghost use Rattle.act1_circuit.specs.FormFaults.{NeverBoth, OneFault};
ghost use Rattle.act1_circuit.specs.Laws.{AnyOrder, ClockIsUnseen, EachCycle, OutsideIsUnclocked, PairsAreClocked, PairsTakeSources, SiteOrderIsWave, SlavesDecide};

use act1_order::rings_and_levels;

/// The law of orders: in a circuit in pair form every wave from the same bits leaves the same bits, and
/// no firing changes them; and the wave in site order is a wave.
pub fn every_order()
    ensures any_order { AnyOrder }
    ensures site_order { SiteOrderIsWave }
{
    rings_and_levels();
}

/// The law of cycles: whatever the order in which its modules fire, a circuit in pair form works as one
/// latch per pair does. And where the modules outside pairs are settled, the slaves and the inputs decide
/// what its outputs show and what its pairs take.
pub fn each_cycle()
    ensures cycles { EachCycle }
    ensures slaves { SlavesDecide }
{
    rings_and_levels();
}

/// The law of faults: a circuit in pair form has none, and any other has at most one first fault.
pub fn forms_are_exact()
    ensures never_both { NeverBoth }
    ensures one_fault { OneFault }
{}

/// The law of pairs: both modules of a pair have the clock on a pin, so in pair form the modules outside
/// pairs are those without it; a module without it has another source at each pin; and the circuit has the
/// source that a pair takes.
pub fn pairs_are_clocked()
    ensures clocked { PairsAreClocked }
    ensures unseen { ClockIsUnseen }
    ensures outside { OutsideIsUnclocked }
    ensures sources { PairsTakeSources }
{}
