// Parts of a lent slice, read, copied and filled.
ghost use Rattle.std.specs.Prelude.{◌≡◌, ◌+◌, ◌≤◌, length, get_or, take, drop, replicate};
ghost use Rattle.words.specs.Records.{splice, splice_cut};

// Word i; 0 where there is none.
pub fn word_at(w: &[u64], i: usize) -> u64
    ensures { result ≡ get_or w.now i 0 }
{
    w.get(i).copied().unwrap_or(0)
}

// The words from n on; none where there are fewer.
pub fn rest(w: &[u64], n: usize) -> &[u64]
    ensures { result.now ≡ drop n w.now }
{
    &w[n.min(w.len())..]
}

// The first n words; all where there are fewer.
pub fn first(w: &[u64], n: usize) -> &[u64]
    ensures { result.now ≡ take n w.now }
{
    &w[..n.min(w.len())]
}

// The first n elements of src, to dst from at on.
pub fn copy<T: Copy>(dst: &mut [T], at: usize, src: &[T], n: usize)
    requires { (at + n ≤ length dst.old) × (n ≤ length src.now) }
    ensures { dst.new ≡ splice at (take n src.now) dst.old }
{
    copy_all(&mut dst[at..at + n], &src[..n]);
}

// The library's `copy_from_slice` becomes `memmove`, a name that C would have to bring.
fn copy_all<T: Copy>(dst: &mut [T], src: &[T])
    requires { length dst.old ≡ length src.now }
    ensures { dst.new ≡ src.now }
{
    for (k, x) in src.iter().enumerate() {
        dst[k] = *x;
    }
}

// The elements of src, to the room of n from at on: cut at its end.
pub fn copy_cut<T: Copy>(dst: &mut [T], at: usize, n: usize, src: &[T])
    requires { at + n ≤ length dst.old }
    ensures { dst.new ≡ splice_cut at n src.now dst.old }
{
    copy(dst, at, src, src.len().min(n));
}

// n times x, to dst from at on.
pub fn fill<T: Copy>(dst: &mut [T], at: usize, n: usize, x: T)
    requires { at + n ≤ length dst.old }
    ensures { dst.new ≡ splice at (replicate n x) dst.old }
{
    fill_all(&mut dst[at..at + n], x);
}

// The library's `fill` asks that a clone cannot fail, which is not known of every T.
fn fill_all<T: Copy>(dst: &mut [T], x: T)
    ensures { dst.new ≡ replicate (length dst.old) x }
{
    for slot in dst.iter_mut() {
        *slot = x;
    }
}
