// What the contracts decide (document 01, "What the contracts have to decide"): any two outcomes that a public function's contract
// allows are equal. There is no code here: each lemma of proofs/ is about a function's own contract, as the checker has it.
#![tactic(auto)]
