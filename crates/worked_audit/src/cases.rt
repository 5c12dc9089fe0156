//! The cases. Nothing but the public calls of `realm_audit` is used. Expected verdicts are those of a program that keeps lists of
//! points alone and looks at each pair of pieces; the short ones were worked out on squared paper too.
mod certificates;
mod hearing;
mod lines;
mod many;
mod texts;
