// Archive records: what an archive's bytes say, and the bytes of files. specs/ has the definitions, proofs/ the laws between them; the
// code that reads and writes stands in crates above.
#![tactic(auto)]
