//! The tests of what neither a clause says nor a run of the built program shows: calls of the outside that fail, in turn; threads that are
//! inside at once; records that are merged and concluded; soundness of what no source gives; the lock and the queue; and one call of
//! each public function that the program doesn't call.
#![tactic(auto)]

#[cfg(test)]
mod book;
#[cfg(test)]
mod calls;
#[cfg(test)]
mod faults;
#[cfg(test)]
mod gates;
#[cfg(test)]
mod kept;
#[cfg(test)]
mod loads;
#[cfg(test)]
mod locks;
#[cfg(test)]
mod logs;
#[cfg(test)]
mod machines;
#[cfg(test)]
mod making;
#[cfg(test)]
mod meeting;
#[cfg(test)]
mod models;
#[cfg(test)]
mod outside;
#[cfg(test)]
mod parsing;
#[cfg(test)]
mod queues;
#[cfg(test)]
mod resolving;
#[cfg(test)]
mod scenes;
#[cfg(test)]
mod sound;
#[cfg(test)]
mod steps;
#[cfg(test)]
mod texts;
#[cfg(test)]
mod values;
