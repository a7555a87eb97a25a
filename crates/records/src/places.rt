// An array read and written at any place: past its end it has the filling, and keeps nothing.
ghost use Rattle.std.specs.Prelude.{◌≡◌, get_or, set};

// Gives what stands at place i, and the filling where xs has no such place.
pub fn get_or<T: Copy>(xs: &[T], i: u32, filling: T) -> T
    ensures { result ≡ get_or xs.now i filling }
{
    xs.get(i as usize).copied().unwrap_or(filling)
}

// Stores x at place i, or nothing where xs has no such place. It goes by the index: `get_mut` promises nothing of what it stores.
pub fn set_at<T: Copy>(xs: &mut [T], i: u32, x: T)
    ensures { xs.new ≡ set xs.old i x }
{
    let at = i as usize;
    if at < xs.len() {
        xs[at] = x;
    }
}
