//! Sessions of lines whose replies were worked out on paper, and what is found again after crashes, faults and damage.
//! There are tests here, and the bytes of files that they begin with. Begin at `sessions.rt`, whose rows are text; `running.rt` has
//! what the tests share.
#![tactic(auto)]

#[cfg(test)]
mod audits;
#[cfg(test)]
mod carrying;
#[cfg(test)]
mod certified;
#[cfg(test)]
mod crashes;
#[cfg(test)]
mod damages;
#[cfg(test)]
mod ends;
mod file_bytes;
#[cfg(test)]
mod files;
#[cfg(test)]
mod follow_crashes;
#[cfg(test)]
mod followed;
#[cfg(test)]
mod frame_lines;
#[cfg(test)]
mod gates;
#[cfg(test)]
mod groups;
#[cfg(test)]
mod old_files;
#[cfg(test)]
mod reopened;
#[cfg(test)]
mod running;
#[cfg(test)]
mod sessions;
#[cfg(test)]
mod sets;
#[cfg(test)]
mod shipped;
#[cfg(test)]
mod standby_pairs;
