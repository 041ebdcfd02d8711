ghost use Rattle.act1_blifread.specs.Laws.{CanonicalIsBlif, NetlistIsOne, NetlistOrFault, NetlistWithoutFault, TextFaultIsOne, TextNetlistIsOne, TextNetlistOrFault, TextNetlistWithoutFault, WholeFaultIsOne};

use act1_bliftext::{texts_are_exact, written_lines_are_read};
use act1_order::rings_and_levels;

/// The law of statements: each have a netlist or a fault of the whole, none have both, and the netlist
/// or the fault is one.
pub fn netlists_are_exact()
    ensures one_at_least { NetlistOrFault }
    ensures never_both { NetlistWithoutFault }
    ensures one_netlist { NetlistIsOne }
    ensures one_fault { WholeFaultIsOne }
{
    rings_and_levels();
}

/// The law of BLIF texts: each of at most 4,000,000,000 bytes has a netlist or a fault, none has both,
/// and the netlist or the fault is one.
pub fn blif_texts_are_exact()
    ensures one_at_least { TextNetlistOrFault }
    ensures never_both { TextNetlistWithoutFault }
    ensures one_netlist { TextNetlistIsOne }
    ensures one_fault { TextFaultIsOne }
{
    netlists_are_exact();
    texts_are_exact();
}

/// The law of canonical texts: the canonical text of a netlist is a BLIF text, and its netlist is that
/// netlist. No bound on the length of the text is needed.
pub fn canonical_text_is_read_back()
    ensures { CanonicalIsBlif }
{
    written_lines_are_read();
}
