//! The law of bound proofs, as a function whose contract states it.

ghost use Rattle.bound_cert.specs.Proven.{BoundProofLaw};

/// A bound proof shows that no valid list of its task, of any length, costs less than its bound.
pub fn law_bound_proofs()
    ensures { BoundProofLaw }
{}
