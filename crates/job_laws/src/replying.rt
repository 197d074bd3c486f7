//! Each line has a reply.

ghost use Rattle.job_laws.specs.Replying.{AllLinesHaveReplies, AllRunsGoOn};

/// In a steady state in which a job may run, and whose ports have MACs, some reply fits each line that
/// can be written.
pub fn all_lines_have_replies()
    ensures { AllLinesHaveReplies }
{}

/// Legal replies to the first lines of a run go on to all of its lines.
pub fn all_runs_go_on()
    ensures { AllRunsGoOn }
{}
