//! Laws about the measurements of the benchmark program. Each is the contract of a function with an empty body.

ghost use Rattle.std.specs.Prelude.{◌≡◌, ◌↔◌, ◌∷◌, [], IsTrue};
ghost use Rattle.slice_bench.specs.declared.measure.Measurement.TheVariants.{Bounded, BoundedByDefault, Building, BuildingFromAddresses};
ghost use Rattle.slice_bench.specs.declared.measure.Measurement.TheVariants.{BuildingWithSize};
ghost use Rattle.slice_bench.specs.declared.measure.Measurement.TheVariants.{Decoding, Filling, LaxFilling};
ghost use Rattle.slice_bench.specs.declared.measure.Measurement.TheVariants.{FilteringFlags, FilteringHost, FilteringHosts};
ghost use Rattle.slice_bench.specs.declared.measure.Measurement.TheVariants.{FilteringNet, FilteringPort, FilteringTerms};
ghost use Rattle.slice_bench.specs.declared.measure.Measurement.TheVariants.{ReadingIpHeaders, Reassembly, Rereading};
ghost use Rattle.slice_bench.specs.declared.measure.Measurement.TheVariants.{Slicing, SlicingNotInlined, SlicingIpv4};
ghost use Rattle.slice_bench.specs.declared.measure.Measurement.TheVariants.{Summing, Verdicts};

use crate::measure::Measurement;

/// States that `Measurement::ALL` lists each measurement of the benchmark program once, in the order in which they are
/// made.
pub fn constants()
    ensures { Measurement.ALL ≡ Slicing ∷ SlicingNotInlined ∷ Filling ∷ LaxFilling ∷ Decoding ∷ Rereading ∷ SlicingIpv4
        ∷ ReadingIpHeaders ∷ Building ∷ BuildingFromAddresses ∷ BuildingWithSize ∷ Reassembly ∷ Bounded ∷ BoundedByDefault
        ∷ FilteringPort ∷ FilteringHost ∷ FilteringNet ∷ FilteringTerms ∷ FilteringFlags ∷ FilteringHosts
        ∷ Verdicts ∷ Summing ∷ [] }
{}

/// States that `==` of two `Measurement` values is true if and only if they are the same measurement.
pub fn comparisons()
    ensures { (a b : Measurement) → IsTrue (⟦<Measurement as PartialEq>⟧.eq a b) ↔ (a ≡ b) }
{}
