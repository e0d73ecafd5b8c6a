//! Digest of the results of all calls of a benchmark job.

use etherparse::err::packet::SliceError;

/// A digest of the results of a benchmark job, with the number of calls. As in Fletcher's checksum there are two sums:
/// one of all added numbers, and one of all values that the first sum had, so that the order of the numbers matters.
/// Adding a number is cheap compared to a call of the library.
#[derive(Drop)]
pub struct Digest {
    calls: u64,
    sum: u64,
    sums: u64,
}

impl Digest {
    /// Returns the digest of a benchmark job before its first call.
    pub fn new() -> Digest {
        Digest {
            calls: 0,
            sum: 0,
            sums: 0,
        }
    }

    /// Counts a call of the library whose result is added to the digest (in the job that reads captures: a packet).
    #[inline]
    pub fn count_call(&mut self) {
        self.calls = self.calls.wrapping_add(1);
    }

    /// Adds a number to the digest, for example a field of a parsed packet.
    #[inline]
    pub fn add(&mut self, number: u64) {
        self.sum = self.sum.wrapping_add(number);
        self.sums = self.sums.wrapping_add(self.sum);
    }

    /// Adds the error of a rejected frame to the digest: for a length error the lengths and the offset, otherwise 1.
    pub fn add_refusal(&mut self, error: &SliceError) {
        match error {
            SliceError::Len(error) => {
                self.add(error.required_len as u64);
                self.add(error.len as u64);
                self.add(error.layer_start_offset as u64);
            }
            _ => self.add(1),
        }
    }

    /// Adds bytes to the digest, for example a built frame: eight at a time as a little endian number, the last up to 7
    /// bytes singly, and then the number of all bytes.
    pub fn add_bytes(&mut self, bytes: &[u8]) {
        let (mut sum, mut sums) = (self.sum, self.sums);
        let words = bytes.chunks_exact(8);
        for word in words {
            if let Some(word) = word.first_chunk::<8>() {
                sum = sum.wrapping_add(u64::from_le_bytes(*word));
                sums = sums.wrapping_add(sum);
            }
        }
        self.sum = sum;
        self.sums = sums;
        for byte in &bytes[bytes.len() - bytes.len() % 8..] {
            self.add(u64::from(*byte));
        }
        self.add(bytes.len() as u64);
    }

    /// Number of calls of the library whose results are in the digest.
    pub fn calls(&self) -> u64 {
        self.calls
    }

    /// The digest of the results of a benchmark job as one number.
    pub fn value(&self) -> u64 {
        self.sum ^ self.sums.wrapping_mul(0x9e37_79b9_7f4a_7c15)
    }
}
