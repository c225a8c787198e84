//! What becomes of a place as pairs go.
ghost use Rattle.std.specs.Prelude.{◌≡◌, ◌<◌};
ghost use Rattle.yaml_tree.specs.Moves.{closed_up, moved_up};

/// A place once the pair at another is gone.
pub fn closed_up(gone: usize, place: usize) -> usize
    ensures { result ≡ closed_up gone place }
{
    if gone < place { place - 1 } else { place }
}

/// A place of so many once the pair at one has gone to the end.
pub fn moved_up(gone: usize, count: usize, place: usize) -> usize
    requires { 0 < count }
    ensures { result ≡ moved_up gone count place }
{
    if place == gone {
        count - 1
    } else {
        closed_up(gone, place)
    }
}
