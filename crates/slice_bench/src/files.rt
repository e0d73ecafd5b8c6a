//! Splits the input file of the benchmark program into frames.

ghost use Rattle.std.specs.Prelude.{◌≡◌, ◌⊎◌, ℕ, List, map, IfErr, IfNone, IfOk, IfSome};
ghost use Rattle.slice_bench.specs.Files.{HoldsFrames, StartsWith};

use crate::bench_error::BenchError;
use std::alloc::Global;

/// Splits the bytes of the benchmark's input file into frames. Each frame in the file is a length (four bytes, little
/// endian) and then as many bytes. Returns an error if the last frame is truncated.
pub fn frames_of(alloc: Global, bytes: &[u8]) -> Result<Vec<&[u8]>, BenchError>
    ensures ok { IfOk result (λ frames. HoldsFrames bytes.now (map (λ frame. frame.now) frames.items)) }
    ensures cut { result ≡ Err BenchError.Cut → (frames : List (List ℕ)) → HoldsFrames bytes.now frames → ⊥ }
    ensures err { IfErr result (λ error. (error ≡ BenchError.Cut) ⊎ (error ≡ BenchError.OutOfMemory)) }
{
    let mut frames = Vec::new(alloc);
    let mut rest = bytes;
    'frames: while !rest.is_empty() {
        let Some((frame, after)) = split_frame(rest) else {
            return Err(BenchError::Cut);
        };
        let Ok(()) = frames.push(frame) else {
            return Err(BenchError::OutOfMemory);
        };
        rest = after;
    }
    Ok(frames)
}

/// Splits off the first frame of the benchmark's input file: a length (four bytes, little endian) and then as many
/// bytes. Returns the frame and the bytes after it, or `None` if the frame is truncated.
fn split_frame(bytes: &[u8]) -> Option<(&[u8], &[u8])>
    ensures some { IfSome result (λ parts. StartsWith bytes.now parts.0.now parts.1.now) }
    ensures none { IfNone result ((frame rest : List ℕ) → StartsWith bytes.now frame rest → ⊥) }
{
    let (field, rest) = bytes.split_first_chunk::<4>()?;
    let len = u32::from_le_bytes(*field) as usize;
    if rest.len() < len {
        return None;
    }
    Some((&rest[..len], &rest[len..]))
}
