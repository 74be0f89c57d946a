// Laws of IEEE 754 arithmetic as the kit's lib.Ieee defines it, and ranges of floats. The crate has no code.
#![tactic(auto)]
