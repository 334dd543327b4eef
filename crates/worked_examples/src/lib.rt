// Tables of examples, each a theorem by evaluation: what the definitions and the statements give for inputs of the papers and of ours. It has no
// function.
#![tactic(auto)]
