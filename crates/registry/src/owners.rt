//! The ports of each participant, by its place.

ghost use Rattle.std.specs.Prelude.{◌≡◌, ℕ, ◌<◌, ◌+◌, ◌++◌, ◌∷◌, [], ◌^◌, nat_eq, OnOk, OnErr, IfSome, vec_len, if◌then◌else◌};
ghost use Rattle.std.specs.Option.{option_copied};
ghost use Rattle.registry.specs.Owners.{numbers_at, first_at, first_of};

use net_types::{Memory, Pid, PortInfo, PortNo};
use std::alloc::Global;

/// The numbers of a participant's ports in order of declaration, and the first of the ports.
#[derive(Drop)]
pub struct Owned {
    pub numbers: Vec<PortNo>,
    pub first: Option<PortInfo>,
}

/// The numbers of a participant's ports.
pub fn numbers_of(owners: &[Owned], who: Pid) -> &[PortNo]
    ensures { result.now ≡ numbers_at owners.now who.0 }
{
    match owners.get(who.0 as usize) {
        Some(owned) => owned.numbers.as_slice(),
        None => &[],
    }
}

/// The first port of a participant.
pub fn first_of(owners: &[Owned], who: Pid) -> Option<&PortInfo>
    ensures { option_copied result ≡ first_at owners.now who.0 }
{
    match owners.get(who.0 as usize) {
        Some(owned) => owned.first.as_ref(),
        None => None,
    }
}

/// Makes a list for each place up to this one. Nobody has another port by that.
fn grow(owners: &mut Vec<Owned>, place: usize) -> Result<(), Memory>
    requires { place < 2 ^ 32 }
    ensures numbers { (n : ℕ) → numbers_at owners.new.items n ≡ numbers_at owners.old.items n }
    ensures first { (n : ℕ) → first_at owners.new.items n ≡ first_at owners.old.items n }
    ensures within { OnOk result (place < vec_len owners.new) }
{
    let alloc = *owners.allocator();
    while owners.len() <= place {
        owners.push(Owned {
            numbers: Vec::new(alloc),
            first: None,
        })?;
    }
    Ok(())
}

/// Puts a port last among those of its owner. After want of memory nobody has another port than before.
pub fn add(owners: &mut Vec<Owned>, port: PortInfo) -> Result<(), Memory>
    ensures numbers { OnOk result ((n : ℕ) → numbers_at owners.new.items n ≡ (if nat_eq port.owner.0 n then numbers_at owners.old.items n ++ port.number ∷ [] else numbers_at owners.old.items n)) }
    ensures first { OnOk result ((n : ℕ) → first_at owners.new.items n ≡ (if nat_eq port.owner.0 n then first_of (first_at owners.old.items n) port else first_at owners.old.items n)) }
    ensures numbers_stay { OnErr result ((n : ℕ) → numbers_at owners.new.items n ≡ numbers_at owners.old.items n) }
    ensures first_stays { OnErr result ((n : ℕ) → first_at owners.new.items n ≡ first_at owners.old.items n) }
{
    let place = port.owner.0 as usize;
    grow(owners, place)?;
    let owned = &mut owners[place];
    owned.numbers.push(port.number)?;
    owned.first = owned.first.or(Some(port));
    Ok(())
}
