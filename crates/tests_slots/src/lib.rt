//! Chunks, their objects and a balance by drawn calls beside plain lists, and a thousand full chunks.
#![tactic(auto)]

#[cfg(test)]
mod counted;
#[cfg(test)]
mod drawn;
#[cfg(test)]
mod draws;
#[cfg(test)]
mod many;
#[cfg(test)]
mod plain;
