// Lists of a few items, which lie in the value itself: nothing is allocated, and a list is copied with what holds it.
#![tactic(auto)]

mod short_list;

pub use short_list::{Full, ShortList};
