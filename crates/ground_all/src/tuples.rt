ghost use Rattle.std.specs.Prelude.{◌≡◌, ◌<◌, length, map, MatchOption, Some, slice_get};
ghost use Rattle.type_check.specs.Ground.{FitPlaces};
ghost use Rattle.ground_all.specs.Tuples.{tuples};
ghost use Rattle.ground_all.specs.Sound.{ArePlaces};

/// How many tuples there are with an object of each place.
pub(crate) fn count(places: &[Vec<u32>]) -> u128
    requires { ArePlaces (map (λ place. place.items) places.now) }
    ensures { result ≡ length (tuples (map (λ place. place.items) places.now)) }
{
    let mut count = 1;
    for place in places {
        count *= place.len() as u128;
    }
    count
}

/// The number of a tuple in dictionary order, where its objects fit the places.
pub(crate) fn number_of(places: &[Vec<u32>], objects: &[u32]) -> Option<u128>
    requires { ArePlaces (map (λ place. place.items) places.now) }
    ensures { let lists = map (λ place. place.items) places.now in MatchOption result
        (FitPlaces lists objects.now → ⊥)
        (λ number. slice_get (tuples lists) number ≡ Some objects.now) }
{
    if places.len() != objects.len() {
        return None;
    }
    let mut number = 0;
    for (place, object) in places.iter().zip(objects) {
        match place.binary_search(object) {
            Ok(at) => number = number * place.len() as u128 + at as u128,
            Err(_) => return None,
        }
    }
    Some(number)
}

/// Writes the tuple that has this number.
pub(crate) fn fill(places: &[Vec<u32>], number: u32, objects: &mut [u32])
    requires places { ArePlaces (map (λ place. place.items) places.now) }
    requires room { length objects.old ≡ length places.now }
    requires one { number < length (tuples (map (λ place. place.items) places.now)) }
    ensures { slice_get (tuples (map (λ place. place.items) places.now)) number ≡ Some objects.new }
{
    let mut rest = number as usize;
    for at in (0..places.len()).rev() {
        let place = &places[at];
        objects[at] = place[rest % place.len()];
        rest /= place.len();
    }
}
