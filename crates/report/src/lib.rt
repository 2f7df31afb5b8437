// Text for people and scripts: answers, errors, states; configurations in words.
// Each function puts its text on a page. Text that finds no room there is left out.
#![tactic(auto)]

pub mod answers;
pub mod configurations;
pub mod errors;
pub mod ports;
pub mod states;
