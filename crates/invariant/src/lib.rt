// Every accepted reply and every burst takes a sound record to a sound record. The crate has no code.
#![tactic(auto)]
