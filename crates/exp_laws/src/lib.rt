// Laws about the definitions of exp: the bounds of E, of narrowing and of holds. The crate has no code.
#![tactic(auto)]
