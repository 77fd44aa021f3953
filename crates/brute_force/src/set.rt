// Sets of points, a bit for each of the first 16.
pub(crate) fn bit(x: u16) -> u16 {
    if x < 16 { 1 << x } else { 0 }
}

pub(crate) fn has(set: u16, x: u16) -> bool {
    set & bit(x) != 0
}

// The lowest point of a set.
pub(crate) fn lowest(set: u16) -> Option<u16> {
    (0..16u16).find(|x| has(set, *x))
}
