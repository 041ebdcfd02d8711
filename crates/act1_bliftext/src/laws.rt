ghost use Rattle.act1_bliftext.specs.Laws.{NeverBoth, OneFault, OneOfTwo, OneReading, WrittenLinesAreRead};

/// Laws of the text of BLIF: a text of at most 4,000,000,000 bytes has statements or a first fault of
/// a line, never both, and one of them alone.
pub fn texts_are_exact()
    ensures one_of_two { OneOfTwo }
    ensures never_both { NeverBoth }
    ensures one_reading { OneReading }
    ensures one_fault { OneFault }
{}

/// The law of what is written line by line: the words are read again, each line adds what it says, and
/// what lines without a fault say is what is read of their text.
pub fn written_lines_are_read()
    ensures { WrittenLinesAreRead }
{}
