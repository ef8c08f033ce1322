//! Single fields of an image.
ghost use Rattle.std.specs.Prelude.{◌≡◌, ◌≤◌, length, IfOk};
ghost use Rattle.std.specs.Int.{w8, w16, w32, w64};
ghost use Rattle.hek_image.specs.Loading.{bytes_at, number_at, number_within};
ghost use Rattle.hek_image.specs.Gives.{FieldFails, FieldGives};
ghost use Rattle.hek_image.specs.Places.{place_seen};

use crate::fault::LoadFault;
use crate::place::Place;

#[tactic(auto, unfolding(crate::specs::Loading::bytes_at))]
pub(crate) fn bytes_at(n: usize, place: Place<'_>) -> Result<(&[u8], Place<'_>), LoadFault>
    ensures gives { FieldGives (λ x. (x.0.now, place_seen x.1)) result (bytes_at n (place_seen place.entry)) }
    ensures len { IfOk result (λ x. length x.0.now ≡ n) }
{
    if place.rest.len() < n {
        return Err(LoadFault::Short);
    }
    let (field, rest) = place.rest.split_at(n);
    Ok((
        field,
        Place {
            at: place.at + n as u64,
            rest,
        },
    ))
}

#[tactic(auto, unfolding(crate::specs::Loading::number_at, crate::specs::Loading::both))]
pub(crate) fn u8_at(place: Place<'_>) -> Result<(u8, Place<'_>), LoadFault>
    ensures { FieldGives (λ x. (x.0, place_seen x.1)) result (number_at w8 (place_seen place.entry)) }
{
    let (field, place) = bytes_at(1, place)?;
    Ok((field[0], place))
}

#[tactic(auto, unfolding(crate::specs::Loading::number_at, crate::specs::Loading::both))]
pub(crate) fn u16_at(place: Place<'_>) -> Result<(u16, Place<'_>), LoadFault>
    ensures { FieldGives (λ x. (x.0, place_seen x.1)) result (number_at w16 (place_seen place.entry)) }
{
    let (field, place) = bytes_at(2, place)?;
    let number = u16::from_be_bytes([field[0], field[1]]);
    Ok((number, place))
}

#[tactic(auto, unfolding(crate::specs::Loading::number_at, crate::specs::Loading::both))]
pub(crate) fn u32_at(place: Place<'_>) -> Result<(u32, Place<'_>), LoadFault>
    ensures { FieldGives (λ x. (x.0, place_seen x.1)) result (number_at w32 (place_seen place.entry)) }
{
    let (field, place) = bytes_at(4, place)?;
    let number = u32::from_be_bytes([field[0], field[1], field[2], field[3]]);
    Ok((number, place))
}

#[tactic(auto, unfolding(crate::specs::Loading::number_at, crate::specs::Loading::both))]
pub(crate) fn u64_at(place: Place<'_>) -> Result<(u64, Place<'_>), LoadFault>
    ensures { FieldGives (λ x. (x.0, place_seen x.1)) result (number_at w64 (place_seen place.entry)) }
{
    let (field, place) = bytes_at(8, place)?;
    let number = u64::from_be_bytes([
        field[0], field[1], field[2], field[3], field[4], field[5], field[6], field[7],
    ]);
    Ok((number, place))
}

#[tactic(auto, unfolding(crate::specs::Loading::number_within, crate::specs::Loading::checked_read))]
pub(crate) fn u8_within(low: u8, high: u8, place: Place<'_>) -> Result<(u8, Place<'_>), LoadFault>
    ensures gives { FieldGives (λ x. (x.0, place_seen x.1)) result (number_within low high w8 (place_seen place.entry)) }
    ensures within { IfOk result (λ x. (low ≤ x.0) × (x.0 ≤ high)) }
{
    let (number, after) = u8_at(place)?;
    if number < low || number > high {
        return Err(LoadFault::BadField(place.at));
    }
    Ok((number, after))
}

#[tactic(auto, unfolding(crate::specs::Loading::number_within, crate::specs::Loading::checked_read))]
pub(crate) fn u32_within(
    low: u32,
    high: u32,
    place: Place<'_>,
) -> Result<(u32, Place<'_>), LoadFault>
    ensures gives { FieldGives (λ x. (x.0, place_seen x.1)) result (number_within low high w32 (place_seen place.entry)) }
    ensures within { IfOk result (λ x. (low ≤ x.0) × (x.0 ≤ high)) }
{
    let (number, after) = u32_at(place)?;
    if number < low || number > high {
        return Err(LoadFault::BadField(place.at));
    }
    Ok((number, after))
}
