// Definitions and laws of whole station files: written and read again, in the old form, with the other letter, as a part of a question.
// The crate has no function.
#![tactic(auto)]
