// Basic resistances of concrete in whole numbers: the cone around an anchor, and the edge in shear by two editions of the
// rules. The crate has the definitions, the exact readings, and the proofs that a resistance is never above the exact
// one and hardly below it.
#![tactic(auto)]
