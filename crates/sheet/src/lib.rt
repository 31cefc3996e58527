// The printed sheet as definitions, with the promises about it. sheet_lines and printer have the code.
#![tactic(auto)]
