//! Drawn calls of the bits of chunks and of their hints, beside plain lists of bits.
#![tactic(auto)]

#[cfg(test)]
mod drawn_bits;
#[cfg(test)]
mod draws;
#[cfg(test)]
mod plain_bits;
