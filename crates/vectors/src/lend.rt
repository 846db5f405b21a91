// As many entries of a slice as are lent, or all of it.
pub fn lend<T>(s: &mut [T], n: usize) -> &mut [T] {
    let n = n.min(s.len());
    &mut s[..n]
}
