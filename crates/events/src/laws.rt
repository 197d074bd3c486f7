//! What the definitions promise of replies that fit and of legal runs of lines: laws, with nothing to run.

ghost use Rattle.events.specs.Headline.{AcceptsLines, AnswersDrained, AnswersTold, DrainDrains, RunsStaySound};

/// A datagram of a drained sender leaves as the isolated policies and the present routes say for its longest exported
/// prefix, and the table alone gives the same frames.
pub fn drained_senders_are_answered()
    ensures { AnswersDrained }
{}

/// So does one of a sender that hasn't taken all that is pending, where the longest prefix that it was told still has the
/// tag that it was told.
pub fn told_tags_are_answered()
    ensures { AnswersTold }
{}

/// In any state, a line whose content meets no condition of a refusal, and for which the table has room, is accepted.
pub fn lines_are_accepted()
    ensures { AcceptsLines }
{}

/// A participant that takes all that is pending is drained.
pub fn drain_drains()
    ensures { DrainDrains }
{}

/// The state after a legal run is sound.
pub fn runs_stay_sound()
    ensures { RunsStaySound }
{}
