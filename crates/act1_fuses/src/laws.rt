ghost use Rattle.act1_fuses.specs.Laws.{OneCircuit, OneFile, NeverBoth, EachTextIsReadOrRefused, FaultsAreFirstLines};

use act1_device::devices_are_small;

/// The law of arrays: device and antifuse file alone say which circuit a sound array is.
pub fn one_circuit()
    ensures { OneCircuit }
{}

/// The law of texts: for a device, all bytes are the text of one antifuse file that keeps the rules, or
/// have a first fault, and never both; and the line of that fault is the first faulty one in the words of
/// the texts: the first that lacks its line feed or with which the lines up to it begin no such text, or
/// the line after the last, where the text is cut.
pub fn fuse_texts_are_exact()
    ensures one_file { OneFile }
    ensures never_both { NeverBoth }
    ensures each { EachTextIsReadOrRefused }
    ensures first_lines { FaultsAreFirstLines }
{
    devices_are_small();
}
