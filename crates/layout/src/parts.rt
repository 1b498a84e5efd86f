// A part of a slice, as far as the slice goes.
ghost use Rattle.std.specs.Prelude.{◌≡◌, take, drop};

// The `size` bytes from `start`, or what there is of them.
pub fn part<'a>(s: &'a [u8], start: usize, size: usize) -> &'a [u8]
    ensures { result.now ≡ take size (drop start s.now) }
{
    let all = s.len();
    if all <= start {
        return &s[all..];
    }
    if all - start < size {
        return &s[start..];
    }
    let end = start + size;
    &s[start..end]
}
