//! What becomes of a sound state where a participant is told anew.

ghost use Rattle.exchange_laws.specs.Telling.{DrainsAreAccepted, GonePairsWereTold, GoneTagsWereTold, NewsAreKnown, PresentAreKnown, TakesAreAccepted, TellingKeepsLive, TellingStaysKept, TellingStaysPooled, TellingStaysSound};

/// What is present for a participant is known to it.
pub fn present_are_known()
    ensures { PresentAreKnown }
{}

/// The state in which a participant was told what is known to it, without what is live no more, is sound.
pub fn telling_stays_sound()
    ensures { TellingStaysSound }
{}

/// The live tags are still the pool's.
pub fn telling_stays_pooled()
    ensures { TellingStaysPooled }
{}

/// Each tag that is kept is live.
pub fn telling_keeps_live()
    ensures { TellingKeepsLive }
{}

/// And each live tag is kept.
pub fn telling_stays_kept()
    ensures { TellingStaysKept }
{}

/// A pair that is live no more is one of the participant's ports with a tag that it was told.
pub fn gone_pairs_were_told()
    ensures { GonePairsWereTold }
{}

/// A tag that is live no more is one that it was told.
pub fn gone_tags_were_told()
    ensures { GoneTagsWereTold }
{}

/// A participant takes all that is pending with the reply that says so.
pub fn drains_are_accepted()
    ensures { DrainsAreAccepted }
{}

/// A participant that takes some of what is pending is told what is known to it.
pub fn news_are_known()
    ensures { NewsAreKnown }
{}

/// It takes the first that are pending with the reply that says so.
pub fn takes_are_accepted()
    ensures { TakesAreAccepted }
{}
