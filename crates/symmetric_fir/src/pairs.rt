// The pairs of mirrored taps.

ghost use Rattle.std.specs.Prelude.{◌≡◌, ◌+◌, ◌*◌, ◌/◌, ◌%◌, ◌<◌, ◌≤◌, ◌++◌, length, map, IfOk};
ghost use Rattle.fir_pieces.specs.declared.reading.Reading.TheVariants.{One};
ghost use Rattle.symmetric_fir.specs.Pairs.{tap, place_if, pair_at, pairs, centres, firsts, centre_places};

use fir_pieces::Reading;
use mr_values::Memory;
use std::alloc::Global;

/// What is read of the window for the pairs of taps that aren't 0 and for the centre, and the first taps of these.
#[derive(Drop)]
pub(crate) struct Pairs {
    pub(crate) pairs: Vec<Reading>,
    pub(crate) centres: Vec<Reading>,
    pub(crate) firsts: Vec<i64>,
}

// The sum of a pair's values, or their difference.
fn pair_at(anti: usize, count: u32, place: u32) -> Reading
    requires { place < count }
    ensures { result ≡ pair_at anti count place }
{
    match anti {
        0 => Reading::Sum(place, count - 1 - place),
        _ => Reading::Difference(place, count - 1 - place),
    }
}

// The pair with this first place, where its taps aren't 0.
fn push_pair(found: &mut Pairs, anti: usize, taps: &[i64], place: u32) -> Result<(), Memory>
    requires few { length taps.now ≤ 1024 }
    requires within { place < length taps.now }
    ensures pairs { IfOk result (λ _. found.new.pairs.items ≡ found.old.pairs.items ++ map (pair_at anti (length taps.now)) (place_if taps.now place)) }
    ensures firsts { IfOk result (λ _. found.new.firsts.items ≡ found.old.firsts.items ++ map (tap taps.now) (place_if taps.now place)) }
    ensures centres { IfOk result (λ _. found.new.centres.items ≡ found.old.centres.items) }
{
    let first = taps[place as usize];
    if first == 0 {
        return Ok(());
    }
    found.pairs.push(pair_at(anti, taps.len() as u32, place))?;
    found.firsts.push(first)?;
    Ok(())
}

// The centre, where there is one and its tap isn't 0.
fn push_centre(found: &mut Pairs, taps: &[i64]) -> Result<(), Memory>
    requires few { length taps.now ≤ 1024 }
    ensures centres { IfOk result (λ _. found.new.centres.items ≡ found.old.centres.items ++ map One (centre_places taps.now)) }
    ensures firsts { IfOk result (λ _. found.new.firsts.items ≡ found.old.firsts.items ++ map (tap taps.now) (centre_places taps.now)) }
    ensures pairs { IfOk result (λ _. found.new.pairs.items ≡ found.old.pairs.items) }
{
    if taps.len() % 2 == 0 {
        return Ok(());
    }
    let place = taps.len() / 2;
    let first = taps[place];
    if first == 0 {
        return Ok(());
    }
    found.centres.push(Reading::One(place as u32))?;
    found.firsts.push(first)?;
    Ok(())
}

/// The pairs of mirrored taps, and their centre.
pub(crate) fn pairs_of(alloc: Global, anti: usize, taps: &[i64]) -> Result<Pairs, Memory>
    requires { length taps.now ≤ 1024 }
    ensures pairs { IfOk result (λ found. found.pairs.items ≡ pairs anti taps.now) }
    ensures centres { IfOk result (λ found. found.centres.items ≡ centres taps.now) }
    ensures firsts { IfOk result (λ found. found.firsts.items ≡ firsts taps.now) }
{
    let mut found = Pairs {
        pairs: Vec::new(alloc),
        centres: Vec::new(alloc),
        firsts: Vec::new(alloc),
    };
    let half = taps.len() as u32 / 2;
    for place in 0..half {
        push_pair(&mut found, anti, taps, place)?;
    }
    push_centre(&mut found, taps)?;
    Ok(found)
}
