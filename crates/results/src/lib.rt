// What C gets of showing: where in the receive pool the front segment's payload lies. What is promised of it, and of a check's time, with the
// number that each stores, stands in specs/.
#![tactic(auto)]

ghost use Rattle.std.specs.Prelude.{◌≡◌};
ghost use Rattle.results.specs.PlaceCodes.{place_code, place_start};

use read_core::Place;

// A place in the receive pool: its start is stored, its count is returned.
pub fn tell_place(place: Place, start: &mut u32) -> i32
    ensures { (result ≡ place_code place) × (start.new ≡ place_start place) }
{
    *start = codes::narrow32(place.start);
    codes::size_code(place.count)
}
