// The chain cover of a file: ranges, links and the questions over them. specs/ says what each answer is; the code stands in the crates above.
#![tactic(auto)]

pub mod answer;
