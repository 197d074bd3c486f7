//! Laws of legal runs: what holds of the state after any lines with replies that fit, and of the next reply. The functions
//! have empty bodies, and their contracts are the laws.
#![tactic(auto)]

ghost use Rattle.run_laws.specs.Given.{KeptOffersWereExported, StaleTagsReachExporters};
ghost use Rattle.run_laws.specs.Promises.{AdvertsFitMessages, PoliciesHavePassed, RefusalsChangeNothing};
ghost use Rattle.run_laws.specs.Refusing.{RefusalsAreInOrder};
ghost use Rattle.run_laws.specs.Sharing.{FreshTagsWereDead, SharedTagsShareSignatures};
ghost use Rattle.run_laws.specs.Taking.{TakesTellTheFirst};

/// After any legal run the texts of all policies are read as policies that passed isolation, and the routing has whom the
/// outbound ones name.
pub fn policies_have_passed()
    ensures { PoliciesHavePassed }
{}

/// After any legal run no advert of a reply that fits takes more octets than a message may have.
pub fn adverts_fit_messages()
    ensures { AdvertsFitMessages }
{}

/// After any legal run a refusal has no details, leaves the state as it was, and is the first one whose condition holds; where
/// none does, the line builds rules and the table would be full.
pub fn refusals_change_nothing()
    ensures { RefusalsChangeNothing }
{}

/// In every legal run each line is refused for the first condition that holds, and the reply names it; where none holds, a line
/// is refused only because the table would be full. The lines that are refused can be left out: the others with their replies
/// are a legal run to the same state.
pub fn refusals_are_in_order()
    ensures { RefusalsAreInOrder }
{}

/// After any legal run `take` tells a participant of the first pending prefixes, as many as it says, and `drain` of all: what is
/// present of them, and of no other. The adverts are those of these prefixes, in order.
pub fn takes_tell_the_first()
    ensures { TakesTellTheFirst }
{}

/// After any legal run a reply that fits gives a prefix no tag that was live, but for a job's end, which gives one that a
/// carried prefix with the same signature had.
pub fn fresh_tags_were_dead()
    ensures { FreshTagsWereDead }
{}

/// After any legal run prefixes that share a tag have the same signature; just after a job has ended, carried prefixes with
/// the same signature share a tag too.
pub fn shared_tags_share_signatures()
    ensures { SharedTagsShareSignatures }
{}

/// After any legal run what is kept under a tag, fresh or stale, offers a participant only such others as exported the prefix to
/// it in the state just after the last line that gave the prefix the tag.
pub fn kept_offers_were_exported()
    ensures { KeptOffersWereExported }
{}

/// After any legal run of lines that can be written, a frame that comes in at a port for a tag that the port's owner was told of a
/// prefix, fresh or stale, leaves only by ports of participants that exported the prefix to it in the state just after the
/// last line that gave the prefix the tag.
pub fn stale_tags_reach_exporters()
    ensures { StaleTagsReachExporters }
{}
