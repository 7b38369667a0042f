// Cases of the font reader, run as tests; a crate of their own, so that the reader is proved once.
#![tactic(auto)]

#[cfg(test)]
mod tests;
