//! The places of a table: each has a value or none.

ghost use Rattle.std.specs.Prelude.{◌≡◌, ◌≤◌, ◌<◌, ◌+◌, ◌^◌, ◌∷◌, [], None, Some, IsOk, IfSome, IfNone, OnOk, OnErr, option_copied, option_map, is_some, not, length, map, slice_set, unwrap_or};
ghost use Rattle.std.specs.Vec.{vec_len};
ghost use Rattle.ordered_map.specs.Lapsed.{lapsing, lasting};
ghost use Rattle.tag_table.specs.Entries.{IsTable, entries_from, entries_of, tag_of, value_in};

use net_types::Tag;
use ordered_map::{Change, Lapse};
use std::alloc::AllocError;

/// The value at a place, where there is one.
pub(crate) fn value_at<V>(places: &[Option<V>], place: usize) -> Option<&V>
    ensures { option_copied result ≡ value_in places.now place }
{
    match places.get(place) {
        Some(held) => held.as_ref(),
        None => None,
    }
}

/// Makes empty places until there are so many.
pub(crate) fn fill<V: Drop>(places: &mut Vec<Option<V>>, count: usize) -> Result<(), AllocError>
    ensures filled { OnOk result (count ≤ length places.new.items) }
    ensures entries { entries_of places.new.items ≡ entries_of places.old.items }
    ensures kept { length places.old.items ≤ length places.new.items }
    ensures few { length places.old.items ≤ count → length places.new.items ≤ count }
{
    while places.len() < count {
        places.push(None)?;
    }
    Ok(())
}

/// Gives a place a value, and answers the one before.
pub(crate) fn put_at<V>(places: &mut Vec<Option<V>>, place: usize, value: V) -> Option<V>
    requires { place < length places.old.items }
    ensures value { result ≡ value_in places.old.items place }
    ensures items { places.new.items ≡ slice_set places.old.items place (Some value) }
{
    places[place].replace(value)
}

/// Takes the value of a place out.
fn take_at<V>(places: &mut Vec<Option<V>>, place: usize) -> Option<V>
    ensures value { result ≡ value_in places.old.items place }
    ensures items { places.new.items ≡ slice_set places.old.items place None }
{
    if place < places.len() {
        places[place].take()
    } else {
        None
    }
}

/// Takes the value of a tag out, and counts it off.
pub(crate) fn take_counted<V>(places: &mut Vec<Option<V>>, count: &mut usize, tag: Tag) -> Option<V>
    requires table { IsTable places.old.items count.old }
    ensures value { result ≡ value_in places.old.items tag.0 }
    ensures items { places.new.items ≡ slice_set places.old.items tag.0 None }
    ensures table { IsTable places.new.items count.new }
{
    let before = take_at(places, tag.0 as usize);
    if before.is_some() {
        *count -= 1;
    }
    before
}

/// Changes a value, where there is one.
fn change_held<V, C: Change<V>>(held: &mut Option<V>, change: &C)
    ensures { held.new ≡ option_map (C.changed change.now) held.old }
{
    match held {
        Some(value) => change.change(value),
        None => {}
    }
}

/// Changes the value of a place, where it has one.
pub(crate) fn change_at<V, C: Change<V>>(places: &mut Vec<Option<V>>, place: usize, change: &C)
    ensures { places.new.items ≡ slice_set places.old.items place (option_map (C.changed change.now) (value_in places.old.items place)) }
{
    if place < places.len() {
        change_held(&mut places[place], change);
    }
}

/// Changes the value of each place.
pub(crate) fn change_all<V, C: Change<V>>(places: &mut Vec<Option<V>>, change: &C)
    ensures { places.new.items ≡ map (option_map (C.changed change.now)) places.old.items }
{
    for place in 0..places.len() {
        change_at(places, place, change);
    }
}

/// Changes a value, and gives this one where there is none: that is answered.
fn change_or_give<V: Drop, C: Change<V>>(held: &mut Option<V>, change: &C, value: V) -> bool
    ensures value { held.new ≡ Some (unwrap_or (option_map (C.changed change.now) held.old) value) }
    ensures given { result ≡ not (is_some held.old) }
{
    match held {
        Some(known) => {
            change.change(known);
            false
        }
        None => {
            *held = Some(value);
            true
        }
    }
}

/// Changes the value of a place, and gives it this one where it has none: that is answered.
pub(crate) fn change_or_put_at<V: Drop, C: Change<V>>(
    places: &mut Vec<Option<V>>,
    place: usize,
    change: &C,
    value: V,
) -> bool
    requires { place < length places.old.items }
    ensures items { places.new.items ≡ slice_set places.old.items place (Some (unwrap_or (option_map (C.changed change.now) (value_in places.old.items place)) value)) }
    ensures given { result ≡ not (is_some (value_in places.old.items place)) }
{
    change_or_give(&mut places[place], change, value)
}

/// Changes a value, where there is one, and lets it go where it has lapsed then: that is answered.
fn change_or_drop<V: Lapse + Drop, C: Change<V>>(held: &mut Option<V>, change: &C) -> bool
    ensures value { held.new ≡ lasting V.lapsed (option_map (C.changed change.now) held.old) }
    ensures lapsed { result ≡ is_some (lapsing V.lapsed (option_map (C.changed change.now) held.old)) }
{
    match held {
        Some(value) => {
            change.change(value);
            let lapsed = value.has_lapsed();
            if lapsed {
                *held = None;
            }
            lapsed
        }
        None => false,
    }
}

/// Changes the value of a place, where it has one, and takes it out where it has lapsed then: that is answered.
pub(crate) fn change_or_take_at<V: Lapse + Drop, C: Change<V>>(
    places: &mut Vec<Option<V>>,
    place: usize,
    change: &C,
) -> bool
    ensures items { places.new.items ≡ slice_set places.old.items place (lasting V.lapsed (option_map (C.changed change.now) (value_in places.old.items place))) }
    ensures lapsed { result ≡ is_some (lapsing V.lapsed (option_map (C.changed change.now) (value_in places.old.items place))) }
{
    if place < places.len() {
        change_or_drop(&mut places[place], change)
    } else {
        false
    }
}

/// The first entry of places, and those after it.
#[derive(Drop)]
pub(crate) struct First<'a, V> {
    pub(crate) number: u32,
    pub(crate) value: &'a V,
    pub(crate) rest: &'a [Option<V>],
}

/// The first entry of places whose first has this number.
pub(crate) fn first_from<V>(places: &[Option<V>], number: u32) -> Option<First<'_, V>>
    requires { number + length places.now < 2 ^ 32 }
    ensures first { IfSome result (λ r. entries_from number places.now ≡ (tag_of r.number, r.value.now) ∷ entries_from (r.number + 1) r.rest.now) }
    ensures few { IfSome result (λ r. r.number + 1 + length r.rest.now ≡ number + length places.now) }
    ensures none { IfNone result (entries_from number places.now ≡ []) }
{
    let mut place = number;
    let mut left = places;
    while let [held, rest @ ..] = left {
        if let Some(value) = held {
            return Some(First {
                number: place,
                value,
                rest,
            });
        }
        place += 1;
        left = rest;
    }
    None
}
