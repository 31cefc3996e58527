// The link file of document 01 as definitions, what reading and writing with lent buffers comes to, and the promises about them.
#![tactic(auto)]
