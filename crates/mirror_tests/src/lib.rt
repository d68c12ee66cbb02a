//! Calls of the top call that keeps files on two devices, over disks in memory that fail and over folders,
//! and the rebuilding of a side.
#![tactic(auto)]

#[cfg(test)]
mod calls;
#[cfg(test)]
mod failing;
#[cfg(test)]
mod folders;
#[cfg(test)]
mod rebuilt;
