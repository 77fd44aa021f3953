// Text in, text out: a problem's text, and the text of the minimiser's answer to it.
#![tactic(auto)]

pub mod answer;
pub mod input;
