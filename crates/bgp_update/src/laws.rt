//! The laws of the codec: what is written is read as what it was.

ghost use Rattle.std.specs.Prelude.{◌≡◌, ◌<◌, ◌≤◌, ◌↔◌, ℕ, List, [], ◌∷◌, length, Some, None, Ok, Err};
ghost use Rattle.net_types.specs.Sets.{Each};
ghost use Rattle.net_types.specs.SoundUpdates.{IsSoundUpdate};
ghost use Rattle.net_types.specs.UpdateReading.{decoded};
ghost use Rattle.net_types.specs.UpdateSpelling.{IsFault, Spells};
ghost use Rattle.net_types.specs.Updates.{announcement, canonical, withdrawal};
ghost use Rattle.net_types.specs.declared.address.Ip.{Ip};
ghost use Rattle.net_types.specs.declared.prefix.Prefix.{Prefix};
ghost use Rattle.net_types.specs.declared.route.Attrs.{Attrs};
ghost use Rattle.net_types.specs.declared.update.Fault.{Fault};
ghost use Rattle.net_types.specs.declared.update.Update.{Update};
ghost use Rattle.bgp_update.specs.RoundTrip.{FitOptional};

/// The canonical message of a sound update spells that update, where it isn't too long for a message.
pub fn messages_read_back()
    ensures { (u : Update) → IsSoundUpdate u → FitOptional u.attrs → length (canonical u) ≤ 4096 → Spells (canonical u) u }
{}

/// The messages that announce and withdraw one prefix are the canonical ones of such updates.
pub fn single_messages_are_canonical()
    ensures announcement { (p : Prefix) (a : Attrs) (ip : Ip) → announcement p a ip ≡ canonical (record { withdrawn = []; attrs = Some (record a { next_hop = ip }); announced = p ∷ [] }) }
    ensures withdrawal { (p : Prefix) → withdrawal p ≡ canonical (record { withdrawn = p ∷ []; attrs = None; announced = [] }) }
{}

/// Reading octets from left to right gives an update exactly where they spell it, and a fault exactly where it is that of
/// the first check that they fail.
pub fn reading_is_spelling()
    ensures spelled { (b : List ℕ) (u : Update) → decoded b ≡ Ok u ↔ Spells b u }
    ensures failed { (b : List ℕ) (f : Fault) → decoded b ≡ Err f ↔ IsFault b f }
{}

/// What octets spell has the form of what messages say.
pub fn spellings_are_sound()
    ensures { (b : List ℕ) (u : Update) → Each (λ c. c < 256) b → Spells b u → IsSoundUpdate u }
{}
