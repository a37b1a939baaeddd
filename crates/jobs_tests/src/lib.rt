//! Tests of compactions and pins that are out of a core, with other calls between their beginning and their end, and of
//! commands that are served on one thread: worked examples, calls that fail, numbers at their end, bytes that are read.
//! Depends on the crates that it tests.
//!
//! A course is a compaction under a pin, with steps before it, while it is out, and behind it, of which one may be
//! another compaction. `calls` and `jobs` are the calls of a core, `course` leads a core through a course, and `cases`
//! has the courses. `served` is a core that serves commands, `served_cases` counts the bytes that it reads, and `stored`
//! looks which files are stored.
#![tactic(auto)]

#[cfg(test)]
mod calls;
#[cfg(test)]
mod cases;
#[cfg(test)]
mod course;
#[cfg(test)]
mod jobs;
#[cfg(test)]
mod served;
#[cfg(test)]
mod served_cases;
#[cfg(test)]
mod stored;
