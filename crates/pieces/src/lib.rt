// The ledger's pieces that the table's rows and the stream hold. The crate has no code.
#![tactic(auto)]
