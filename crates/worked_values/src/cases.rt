//! The cases, by what they ask. Nothing but the public calls of the crates is used.
mod borders;
mod classes;
mod geometries;
mod numbers;
mod parts;
mod sets;
