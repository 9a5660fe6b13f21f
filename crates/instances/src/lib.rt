// The marked instances of document 01 and runs of the Rust, computed from the definitions: specs/ has them.
#![tactic(auto)]
