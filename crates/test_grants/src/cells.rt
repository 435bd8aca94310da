// The cells that a set of views is due.

use test_expect::cells::untouched;

// The views of a set, view n at bit n - 1, ascending, at the head of the buffer; the cells past them are as they were.
pub fn headed_by_set(views: u64) -> [u64; 10] {
    let mut cells = untouched();
    let mut left = views;
    for cell in cells.iter_mut() {
        if left == 0 {
            break;
        }
        *cell = u64::from(left.trailing_zeros() + 1);
        left &= left - 1;
    }
    cells
}
