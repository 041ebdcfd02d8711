ghost use Rattle.act1_map.specs.Least.{LeastIsAtMostNeed, LeastIsOne};
ghost use Rattle.act1_map.specs.Laws.{MappedHasOwnSources, MappedIsFew, MappedIsRead, MappedMeans, NetHasTerms, NetMeansNetlist};

use act1_blif::{latch_names_differ, netlists_are_whole, valuations_have_signals};
use act1_circuit::pairs_are_clocked;
use act1_cover::{each_tile_is_read, forests_denote, least_is_few, tiles_give_values};
use act1_meaning::carrying_means;

/// The law of mapping: a circuit that has a module for each tile of the nodes that are read, and two for each
/// latch, is in pair form and means the net, in every order of firing.
pub fn mapped_means()
    ensures { MappedMeans }
{
    latch_names_differ();
    netlists_are_whole();
    valuations_have_signals();
    pairs_are_clocked();
    forests_denote();
    tiles_give_values();
    carrying_means();
}

/// The law of outputs: in a mapped circuit each latch has a start, an output that is an input has that input
/// as its source, and one that is a latch has the module of the latch's start.
pub fn mapped_has_own_sources()
    ensures { MappedHasOwnSources }
{}

/// The law of modules: where the tiles are those of nodes that are used, each module of a mapped circuit is
/// the source of some pin or output, and there are at most as many as the net's least count.
pub fn mapped_is_small()
    ensures read { MappedIsRead }
    ensures few { MappedIsFew }
{
    forests_denote();
    each_tile_is_read();
}

/// The law of nets: a circuit that means a net which does what a netlist does means the netlist; and such a
/// net has a term for each output and each latch.
pub fn net_means_netlist()
    ensures means { NetMeansNetlist }
    ensures terms { NetHasTerms }
{}

/// The law of counts: a netlist has at most one least count of modules, which is that of the fewest tiles of
/// each cover and two modules for each latch; and it is at most what the netlist needs at most.
pub fn least_counts()
    ensures one { LeastIsOne }
    ensures need { LeastIsAtMostNeed }
{
    forests_denote();
    least_is_few();
}
