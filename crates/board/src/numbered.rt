// Tables whose items are numbered from 1.
ghost use Rattle.std.specs.Prelude.{◌≡◌, ◌-◌, ◌≤◌, slice_index_or, slice_set};

// The item with the number `k`, or else `other`. A number is a `u16` from 1 on, and no `NonZeroU16`: the lent records hold it as a `u16`,
// where 0 says that there is none, and each use would convert.
pub(crate) fn at<T: Copy>(items: &[T], k: u16, other: T) -> T
    requires { 1 ≤ k }
    ensures { result ≡ slice_index_or items.now (k - 1) other }
{
    items.get(k as usize - 1).copied().unwrap_or(other)
}

// The item becomes the one with the number `k`, if there is such a place.
pub(crate) fn put<T: Copy>(items: &mut [T], k: u16, item: T)
    requires { 1 ≤ k }
    ensures { items.new ≡ slice_set items.old (k - 1) item }
{
    // By index: of the other items no proof knows anything after a `get_mut`.
    let i = k as usize - 1;
    if i < items.len() {
        items[i] = item;
    }
}
