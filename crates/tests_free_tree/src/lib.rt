//! The free blocks by a table of places, by drawn calls beside a plain scan, and many of them.
#![tactic(auto)]

#[cfg(test)]
mod drawn;
#[cfg(test)]
mod looks;
#[cfg(test)]
mod many;
#[cfg(test)]
mod table;
