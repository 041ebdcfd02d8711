ghost use Rattle.act1_report.specs.Laws.{NeverBoth, OneAnswer, OneReport};

/// The law of the texts of reports: bytes are the text of one report at most, and then they have no faulty line.
pub fn report_texts_are_exact()
    ensures one { OneReport }
    ensures never { NeverBoth }
{}

/// The law of the check of reports: bytes have one answer for a device, but for want of memory.
pub fn one_answer()
    ensures { OneAnswer }
{}
