// The table: a header, records behind it and a bit for each, judged, searched, read as values and stored. Every byte of a table is reached through
// here.
#![tactic(auto)]

mod compare;
pub mod find;
pub mod fresh;
pub mod places;
pub mod search;
pub mod sound;
pub mod status;
pub mod store;
pub mod walk;
