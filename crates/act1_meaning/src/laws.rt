ghost use Rattle.act1_meaning.specs.Laws.{ArrayNetMeans, CarryingMeans, CarryingShows, ConstantsMean, EachStateIsMet, EveryOrderIsEnough};

use act1_blif::{latch_names_differ, one_valuation, ports_are_few, valuations_have_signals};
use act1_circuit::{each_cycle, every_order, pairs_are_clocked};
use act1_logic::on_sets_have_values;

/// The law of carrying: a circuit in pair form means a netlist, in every order of firing, where for each
/// valuation of the netlist there are bits that carry it. So a mapping speaks of no wave. The same holds
/// where outputs and next states are read from a valuation in another way than the netlist's own.
pub fn carrying_means()
    ensures means { CarryingMeans }
    ensures shows { CarryingShows }
{
    one_valuation();
    each_cycle();
}

/// The law of circuits without modules: one whose outputs are the constants of a netlist without
/// inputs and latches means that netlist, in every order of firing.
pub fn constants_mean()
    ensures { ConstantsMean }
{
    ports_are_few();
}

/// The law of orders: a circuit that means a netlist in every order of firing means it where the
/// modules fire in site order.
pub fn every_order_is_enough()
    ensures { EveryOrderIsEnough }
{
    every_order();
}

/// The law of extraction: a circuit in pair form, whose starts have different names and modules, means the
/// netlist that it is extracted to, in every order of firing.
pub fn array_net_means()
    ensures { ArrayNetMeans }
{
    on_sets_have_values();
    latch_names_differ();
    valuations_have_signals();
    pairs_are_clocked();
    carrying_means();
}

/// The law of states: where circuit and netlist have the same ports, each state of the netlist is that of
/// some module bits. So what is meant is meant from every state in which the netlist may begin.
pub fn each_state_is_met()
    ensures { EachStateIsMet }
{
    latch_names_differ();
}
