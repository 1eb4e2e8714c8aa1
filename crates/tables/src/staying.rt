// What stays of a list, written place after place.
ghost use Rattle.std.specs.Prelude.{◌≡◌, ◌<◌, length};
ghost use Rattle.laws.specs.Lists.{put_if, next_if};

// `x` at place `at`, if it stays; the place after it.
pub fn put_kept<T: Copy>(out: &mut [T], at: usize, x: T, stays: bool) -> usize
    requires { at < length out.old }
    ensures value { result ≡ next_if stays at }
    ensures out_after { out.new ≡ put_if stays at x out.old }
{
    if stays {
        out[at] = x;
        return at + 1;
    }
    at
}
