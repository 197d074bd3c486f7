//! Each line has a reply.

ghost use Rattle.reply_laws.specs.Replying.{LinesHaveReplies, PortsKeepMacs};

/// Any line, a job's too, and any reply leave each port its MAC.
pub fn ports_keep_macs()
    ensures { PortsKeepMacs }
{}

/// In a steady state whose ports have MACs, some reply fits each line that can be written and isn't a job's.
pub fn lines_have_replies()
    ensures { LinesHaveReplies }
{}
