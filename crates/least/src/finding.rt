ghost use Rattle.std.specs.Prelude.{None, is_some, slice_index_or};
ghost use Rattle.least.specs.From.{IsLeastFrom};

/// The least place of a list, from `from` on, where something stands.
pub fn next_place<T>(places: &[Option<T>], from: usize) -> Option<usize>
    ensures { IsLeastFrom from (λ k. is_some (slice_index_or places.now k None)) result }
{
    for place in from..places.len() {
        if places[place].is_some() {
            return Some(place);
        }
    }
    None
}
