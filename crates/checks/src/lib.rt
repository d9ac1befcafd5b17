// Tests over many cases, apart from the libraries that they try, so that these are not proved twice.
#![tactic(auto)]

#[cfg(test)]
mod common;
#[cfg(test)]
mod handed_back;
#[cfg(test)]
mod makers;
#[cfg(test)]
mod runs;
#[cfg(test)]
mod shifts;
#[cfg(test)]
mod short_lists;
