// Tests of fields, sheets and choices: each refusal with its place, at its edge and one past it, what pictures cost, each
// word of the checker, and lowest cheapest choices.
#![tactic(auto)]

#[cfg(test)]
mod cases;
#[cfg(test)]
mod choices;
#[cfg(test)]
mod refused;
#[cfg(test)]
mod sheets;
#[cfg(test)]
mod table;
