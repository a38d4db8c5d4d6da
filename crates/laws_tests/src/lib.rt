//! Tests of `ball_laws`, `match_laws`, `corrections`, `plans` and `desk_state`: what no row of text can show.
#![tactic(auto)]

#[cfg(test)]
mod tests;
