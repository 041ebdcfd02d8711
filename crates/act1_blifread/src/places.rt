ghost use Rattle.std.specs.Prelude.{◌≡◌, ◌<◌, ◌≤◌, Some, length, IsTrue, IfOk, slice_set, unwrap_or};
ghost use Rattle.act1_bliftext.specs.Rules.{are_below};
ghost use Rattle.act1_blifread.specs.NetlistSteps.{ArePlaces, place_at};

use act1_base::Memory;
use std::alloc::Global;

// Notes the place of a name, where it has none yet.
fn note_place(places: &mut Vec<Option<u16>>, name: u16, place: u16)
    requires { name < length places.old.items }
    ensures { places.new.items ≡ slice_set places.old.items name (Some (unwrap_or (place_at places.old.items name) place)) }
{
    let at = usize::from(name);
    let first = places[at].unwrap_or(place);
    places[at] = Some(first);
}

/// For each of `count` names its first place among these names, if it is one of them.
pub fn places_of(alloc: Global, count: usize, names: &[u16]) -> Result<Vec<Option<u16>>, Memory>
    requires within { IsTrue (are_below count names.now) }
    requires few { length names.now ≤ 65535 }
    ensures { IfOk result (λ places. ArePlaces count names.now places.items) }
{
    let mut places = vec![in alloc; None; count]?;
    for (place, name) in names.iter().enumerate() {
        note_place(&mut places, *name, place as u16);
    }
    Ok(places)
}

/// The place of a name, if it has one.
pub fn place_at(places: &[Option<u16>], name: u16) -> Option<u16>
    ensures { result ≡ place_at places.now name }
{
    match places.get(usize::from(name)) {
        Some(place) => *place,
        None => None,
    }
}
