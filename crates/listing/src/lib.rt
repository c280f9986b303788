// The listing of a tape as bytes: its fixed words, its lines, and the drawing of a ring. Programs write what this library spells.
#![tactic(auto)]

pub mod clock;
pub mod drawing;
pub mod lines;
pub mod price;
mod shown;
mod text;
