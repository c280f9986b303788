// Plays the paper's worked numbers, the errors that students really make, the order of answers, the places that they tell, the order of reject
// letters, other settings, halts, intended sizes after a self match, the purge button, what is counted of the live orders, and old tables through the
// host, and prints a line for each: what should happen and what did. The last line counts those that agree.
#![tactic(auto)]

mod answers_order;
mod asked;
mod board;
mod entries;
mod errors;
mod halts;
mod house;
mod houses;
mod letters;
mod older;
mod olds;
mod places;
mod purges;
mod row;
mod run;
mod script;
mod sizes;
mod tallies;
mod text;
mod told;
mod worked;

use crate::answers_order::ANSWERS;
use crate::errors::ERRORS;
use crate::halts::HALTS;
use crate::houses::HOUSES;
use crate::letters::LETTERS;
use crate::olds::OLDS;
use crate::places::PLACES;
use crate::purges::PURGES;
use crate::row::{Tally, shown};
use crate::sizes::SIZES;
use crate::tallies::TALLIES;
use crate::worked::WORKED;

// What standard output doesn't take is not said again, but the piece behind it is tried, here and in each row.
fn main(rt: HostRuntime) {
    let to = rt.stdout();
    let _ = println!(to;
        "an order: token, state, liable-executed-self-matched=open, time in force"
    );
    let mut tally = Tally { tried: 0, agree: 0 };
    for list in [
        WORKED, ERRORS, ANSWERS, PLACES, LETTERS, HOUSES, HALTS, SIZES, PURGES, TALLIES, OLDS,
    ] {
        tally = shown(to, tally, list);
    }
    let _ = print!(to; "{}", tally.agree);
    let _ = to.write_all(b" of ");
    let _ = print!(to; "{}", tally.tried);
    let _ = to.write_all(b" did what they should\n");
}
