#![tactic(auto)]

// Laws of every session: no code. Statements and definitions are in specs/, proofs in proofs/.
