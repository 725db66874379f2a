#![tactic(auto)]

// Laws of one sample of the desk, whatever the session around it: no code. Statements and definitions are in specs/, proofs in proofs/.
