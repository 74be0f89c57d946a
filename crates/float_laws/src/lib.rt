// Laws about the definitions of float that no function's proof needs: ranges, growth, order. The crate has no code.
#![tactic(auto)]
