// The whole promise of the product on one page (specs/Promise.antt), checked against every crate's proofs. No code.
#![tactic(auto)]
