//! Tests of calls whose allocations fail: the script `refuse.py` makes each allocation of a test fail in a run of its
//! own.
//!
//! Each test, except those in `ample`, passes whichever of its allocations fails, and if none fails. A call that
//! reports an allocation failure is named on a line `refused: NAME`. It is then made a second time and has to return
//! its ordinary result. The script skips `ample`, checks that one call is named for each failed allocation, and
//! compares the allocations of each call with the table in `requests`.
#![tactic(auto)]

#[cfg(test)]
mod ample;
#[cfg(test)]
mod bounded;
#[cfg(test)]
mod buffers;
#[cfg(test)]
mod checks;
#[cfg(test)]
mod filters;
#[cfg(test)]
mod frames;
#[cfg(test)]
mod headers;
#[cfg(test)]
mod pool;
#[cfg(test)]
mod runs;
#[cfg(test)]
mod samples;
#[cfg(test)]
mod spare;
#[cfg(test)]
mod without_memory;
