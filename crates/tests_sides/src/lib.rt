//! Calls of the sides, with what they give: pages, blocks and their parts, live areas, spans that wait, and books.
#![tactic(auto)]

#[cfg(test)]
mod areas;
#[cfg(test)]
mod blocks;
#[cfg(test)]
mod books;
#[cfg(test)]
mod pages;
#[cfg(test)]
mod waits;
