ghost use Rattle.act1_job.specs.Laws.{NeverBoth, OneJob};

/// The law of the texts of jobs: bytes are the text of one job at most, and then they have no faulty line.
pub fn job_texts_are_exact()
    ensures one { OneJob }
    ensures never { NeverBoth }
{}
