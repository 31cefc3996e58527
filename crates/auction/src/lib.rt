// The auction of document 01 as definitions, with the promises about it.
#![tactic(auto)]
