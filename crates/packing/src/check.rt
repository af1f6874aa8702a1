// The numbers of a packing, checked in the order of the percentage sheet that would hold them.
ghost use Rattle.std.specs.Prelude.{◌≡◌};
ghost use Rattle.packing.specs.Answer.{check_head, check_service, check_services, check_all};

use numerals::Refusal;

// k, tolerance and capacity.
fn check_head(k: usize, tolerance: u64, capacity: usize) -> Result<(), Refusal>
    ensures { result ≡ check_head k tolerance capacity }
{
    if !(1..=numerals::MOST_BITS).contains(&k) {
        return Err(Refusal::BadField);
    }
    if numerals::UNIT < tolerance {
        return Err(Refusal::BadField);
    }
    if !(1..=numerals::MOST_CAPACITY).contains(&capacity) {
        return Err(Refusal::BadField);
    }
    Ok(())
}

// The line of one service, whose ids and weights are the first of their rows: how many they are, the volume, the ids
// and weights, and the weights' sum.
fn check_service(volume: u64, size: usize, ids: &[usize], weights: &[u64]) -> Result<(), Refusal>
    ensures { result ≡ check_service volume size ids.now weights.now }
{
    if size < 1 {
        return Err(Refusal::Malformed);
    }
    if numerals::MOST_BACKENDS < size {
        return Err(Refusal::TooMany);
    }
    if ids.len() < size {
        return Err(Refusal::Malformed);
    }
    if weights.len() < size {
        return Err(Refusal::Malformed);
    }
    if numerals::MOST_VOLUME < volume {
        return Err(Refusal::BadField);
    }
    expansion::check_weights(&ids[..size], &weights[..size])
}

// Every service in turn; a 65th is one too many. The ids of all services stand in one row and their weights in another,
// as many of each as `sizes` says. A service without a volume or a size has too few fields, and what is left of a row
// is on no line.
fn check_services(
    volumes: &[u64],
    sizes: &[usize],
    ids: &[usize],
    weights: &[u64],
) -> Result<(), Refusal>
    ensures { result ≡ check_services
        volumes.now sizes.now ids.now weights.now }
{
    let lines = volumes.len().max(sizes.len());
    let mut at = 0;
    for s in 0..lines {
        if numerals::MOST_SERVICES <= s {
            return Err(Refusal::TooMany);
        }
        if volumes.len() <= s {
            return Err(Refusal::Malformed);
        }
        if sizes.len() <= s {
            return Err(Refusal::Malformed);
        }
        let n = sizes[s];
        check_service(volumes[s], n, &ids[at..], &weights[at..])?;
        at += n;
    }
    if at < ids.len() {
        return Err(Refusal::Malformed);
    }
    if at < weights.len() {
        return Err(Refusal::Malformed);
    }
    if lines < 1 {
        return Err(Refusal::NoService);
    }
    Ok(())
}

// Everything that is handed in; last the capacity against the number of services.
pub fn check_all(
    k: usize,
    tolerance: u64,
    capacity: usize,
    volumes: &[u64],
    sizes: &[usize],
    ids: &[usize],
    weights: &[u64],
) -> Result<(), Refusal>
    ensures { result ≡ check_all k tolerance capacity
        volumes.now sizes.now ids.now weights.now }
{
    check_head(k, tolerance, capacity)?;
    check_services(volumes, sizes, ids, weights)?;
    if capacity < volumes.len() {
        return Err(Refusal::TableShort);
    }
    Ok(())
}
