//! Reassembly of a whole list of fragments of one payload, by one function.

ghost use Rattle.std.specs.Prelude.{◌≡◌, ◌≢◌, ◌<◌, ℕ, List, [], take, length, IfOk, IfErr, OnOk, OnErr, Err};
ghost use Rattle.std.specs.List.{All, HoldsAt};
ghost use Rattle.ep_defrag.specs.declared.ip_defrag_error.IpDefragError.TheVariants as defrag_error;
ghost use Rattle.ep_defrag.specs.IpFragments.{IpFragment};
ghost use Rattle.ep_defrag.specs.FragmentRefusals.{MayNeedMemory, refusal_of};
ghost use Rattle.ep_defrag.specs.Buffers.{HoldsFragments, ip_number_of};
ghost use Rattle.ep_defrag.specs.Runs.{accepted_with, accepted_after, ok_unless, answers_after};

use crate::fragment::Fragment;
use crate::ip_defrag_buf::IpDefragBuf;
use crate::ip_defrag_error::IpDefragError;
use crate::ip_frag_range::IpFragRange;
use ep_base::IpNumber;
use std::alloc::{AllocError, Global};

/// The error of a run over a list of fragments or of calls on a reassembly pool: an allocation failed.
#[derive(Debug, PartialEq, Eq, Drop)]
pub struct RunStop {
    /// Index of the fragment or call at which the run stopped. It is 0, too, if the vector of the results could not be
    /// allocated.
    pub at: usize,
}

/// Adds a list of fragments one after the other to a new reassembly buffer. It returns the buffer and the result of
/// each fragment, in order. The buffer uses the memory of the vectors `bytes` and `sections`, and the payload may have
/// up to 65535 bytes.
///
/// Whatever fragments were accepted, the payload can still be completed: by one more fragment
/// (law `one_fragment_completes`), or by two more fragments that frames can carry (law `two_fragments_complete`).
///
/// # Errors
///
/// `RunStop`, only if an allocation fails.
pub fn add_all(
    alloc: Global,
    ip_number: IpNumber,
    bytes: Vec<u8>,
    sections: Vec<IpFragRange>,
    fragments: &[Fragment],
) -> Result<(IpDefragBuf, Vec<Result<(), IpDefragError>>), RunStop>
    ensures holds { IfOk result (λ run. HoldsFragments run.0 (accepted_after [] fragments.now)) }
    ensures answers { IfOk result (λ run. run.1.items ≡ answers_after [] fragments.now) }
    ensures ip_number { IfOk result (λ run. ip_number_of run.0 ≡ ip_number) }

    // No answer is an allocation failure, and a run that stops after the first fragment stops at a fragment that fits
    // and is not in place.
    ensures no_memory { IfOk result (λ run.
        All (λ answer. (len : ℕ) → answer ≢ Err (defrag_error.AllocationFailure len)) run.1.items) }
    ensures within { IfErr result (λ stop. stop.at < length fragments.now) }
    ensures stopped { IfErr result (λ stop. 0 < stop.at →
        HoldsAt (MayNeedMemory (accepted_after [] (take stop.at fragments.now))) fragments.now stop.at) }
{
    let Ok(mut answers) = Vec::with_capacity(alloc, fragments.len()) else {
        return Err(RunStop { at: 0 });
    };
    let mut buffer = IpDefragBuf::new(ip_number, bytes, sections);
    for (at, fragment) in fragments.iter().enumerate() {
        let Ok(answer) = answer_next(&mut buffer, fragment) else {
            return Err(RunStop { at });
        };
        answers.push(answer).unwrap();
    }
    Ok((buffer, answers))
}

/// Adds one fragment to the reassembly buffer and returns its result: accepted, or the error that rejects it. It
/// returns the outer `Err` only if an allocation failed.
fn answer_next(
    buffer: &mut IpDefragBuf,
    fragment: &Fragment,
) -> Result<Result<(), IpDefragError>, AllocError>
    ensures answer { IfOk result (λ answer. (accepted : List IpFragment) → HoldsFragments buffer.old accepted →
        answer ≡ ok_unless (refusal_of accepted fragment.now)) }
    ensures holds { OnOk result ((accepted : List IpFragment) → HoldsFragments buffer.old accepted →
        HoldsFragments buffer.new (accepted_with accepted fragment.now)) }
    ensures memory { OnErr result ((accepted : List IpFragment) → HoldsFragments buffer.old accepted →
        MayNeedMemory accepted fragment.now) }
    ensures ip_number { ip_number_of buffer.new ≡ ip_number_of buffer.old }
{
    match buffer.add(fragment.offset, fragment.more_fragments, fragment.payload) {
        Ok(()) => Ok(Ok(())),
        Err(error) => {
            if error.is_allocation_failure() {
                Err(AllocError)
            } else {
                Ok(Err(error))
            }
        }
    }
}
