mod close;
mod shift;
mod start;

use crate::fit::Fit;

// A run that is being loaded: its frame with the channels and outlets of its machine, and the cycles done. It is started, shifted and closed.
// Machine and chain memory are lent to it at each call, apart from one another: between the calls both are the caller's own.
#[derive(Drop)]
pub struct Loading {
    pub(crate) fit: Fit,
    pub(crate) done: usize,
}
