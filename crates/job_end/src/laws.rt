//! What the end of a job leads to, once it is carried out. The function's contract is the law, and its body only cites others.

ghost use Rattle.job_end.specs.Laws.{EndsAreFinished, EndsCanBeCommitted, EndsFitLines, EndsLeadOn, OffersAreKnown};

use job_laws::jobs_end;

/// An end planned for a steady state can be committed to the parts that have the state, where there is room for its offers. The
/// parts then have the state with merged classes and tight rules, and so has the line that ends the job, with the reply that
/// says what the end says. Its offers are to participants that were told something, be it nothing.
pub fn ends_are_committed()
    ensures known { OffersAreKnown }
    ensures allowed { EndsCanBeCommitted }
    ensures reached { EndsLeadOn }
    ensures finished { EndsAreFinished }
    ensures fits { EndsFitLines }
{
    jobs_end();
}
