// How a profile and a value lie in bytes for C: specs/Profiles and specs/Values, on the numbers of specs/Bytes; proofs/ that the bytes are
// those of exactly one. There is no code here: `console` reads and writes these bytes.
#![tactic(auto)]
