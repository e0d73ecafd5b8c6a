//! The law that each input of the program has exactly one output: the contract of a function that does nothing.

ghost use Rattle.std.specs.Prelude.{ℕ, List};
ghost use Rattle.frame_bench.specs.Answers.{IsAnswered};

/// States that the program has exactly one output for an input, whatever lines came before. It follows from the law
/// `frames`: bytes are sliced in exactly one way or rejected with exactly one error.
pub fn answers()
    ensures { (before : List (List ℕ)) (input : List ℕ) → IsAnswered before input }
{
    etherparse::laws::packet::frames();
}
