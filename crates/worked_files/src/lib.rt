//! Worked cases of what stands in files: records, heads, payloads and pages byte by byte, and what a crash leaves of an append or
//! of a switch. There are tests alone here. Begin at `cases.rt`; `paper.rt` has what the cases share.
#![tactic(auto)]

#[cfg(test)]
mod cases;
#[cfg(test)]
mod paper;
